//! The laws of tokens and values.

ghost use Rattle.value_at.specs.Laws.{PlacesAreAll, PlacesAreInOrder, TokensAreOne, ValuesAreOne};

/// Law: of the tokens of a source one at most holds a byte, and one lower-case word at most ends before it.
pub fn tokens_are_one()
    ensures { TokensAreOne }
{}

/// Law: a place of a sound project has one value, or one reason why it has none.
pub fn values_are_one()
    ensures { ValuesAreOne }
{}

/// Law: the places of a footprint are its declarations and the references to them, and no others, in their order.
pub fn footprint_places_are_all()
    ensures all { PlacesAreAll }
    ensures order { PlacesAreInOrder }
{}
