//! Values by name. The names are ordered and not hashed, so no choice of names makes a look-up slow.

ghost use Rattle.std.specs.Prelude.{◌≡◌, IfOk, OnOk, OnErr, IsSome, if◌then◌else◌, None, ℕ, List, bytes_eq};
ghost use Rattle.name_tables.specs.Names.{at};

use rotor_base::Memory;
use std::alloc::Global;
use std::collections::BTreeMap;
use std::mem::replace;

/// A value for each of some names. A look-up compares the name with as many others as the number of names has digits.
#[derive(Drop)]
pub struct Names<V: Copy> {
    map: BTreeMap<Vec<u8>, V>,
}

impl<V: Copy> Names<V> {
    /// No names.
    pub fn new(alloc: Global) -> Self
        ensures { (x : List ℕ) → at result x ≡ None }
    {
        Names {
            map: BTreeMap::new(alloc),
        }
    }

    /// The value of a name.
    pub fn get(&self, name: &[u8]) -> Option<V>
        ensures { result ≡ at self.now name.now }
    {
        self.map.get(name).copied()
    }

    /// Gives a name a value, and returns the one that it had. Only a name without a value is copied. `Memory` is the
    /// only error, and changes no name's value.
    pub fn put(&mut self, alloc: Global, name: &[u8], value: V) -> Result<Option<V>, Memory>
        ensures old { IfOk result (λ old. old ≡ at self.old name.now) }
        ensures put { OnOk result ((x : List ℕ) → at self.new x ≡ (if bytes_eq name.now x then Rattle.std.specs.Prelude.Some value else at self.old x)) }
        ensures kept { OnErr result ((x : List ℕ) → at self.new x ≡ at self.old x) }
    {
        match self.map.get_mut(name) {
            Some(held) => Ok(Some(replace(held, value))),
            None => {
                let key = Vec::from_slice(alloc, name)?;
                Ok(self.map.insert(key, value)?)
            }
        }
    }

    /// Gives a name that has a value another one, or none. It takes no memory.
    pub fn set(&mut self, name: &[u8], value: Option<V>)
        requires { IsSome (at self.old name.now) }
        ensures { (x : List ℕ) → at self.new x ≡ (if bytes_eq name.now x then value else at self.old x) }
    {
        match value {
            None => {
                self.map.remove(name);
            }
            Some(value) => {
                if let Some(place) = self.map.get_mut(name) {
                    *place = value;
                }
            }
        }
    }
}
