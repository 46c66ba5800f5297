ghost use Rattle.std.specs.Prelude.{◌≡◌};
ghost use Rattle.binding_model.specs.Facts.{is_before};

use rotor_base::Place;

/// Whether a place is before another: in an earlier file, or at an earlier token of the same file.
pub fn is_before(p: Place, q: Place) -> bool
    ensures { result ≡ is_before p q }
{
    p.file < q.file || (p.file == q.file && p.token < q.token)
}
