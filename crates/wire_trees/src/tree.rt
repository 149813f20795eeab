//! What a JSON value is asked, whoever keeps its texts.

ghost use Rattle.std.specs.Prelude.{◌≡◌, is_some, map, option_and_then, option_map};
ghost use Rattle.serde_json.specs.Find.{as_array, as_bool, as_number, as_object, as_str, as_u64, get};
ghost use Rattle.serde_json.specs.View.{items_of, view};

use serde_json::Value;

/// A JSON value that can be looked into.
pub trait Tree: Sized {
    ghost use Rattle.serde_json.specs.Data.{Data};

    ghost stands_for: { Self → Data };

    /// The member of that name, where this is an object that has one.
    fn member(&self, name: &str) -> Option<&Self>
        ensures { option_map (λ v. stands_for v.now) result ≡ get name.now (stands_for self.now) };

    /// The text that this is.
    fn text(&self) -> Option<&str>
        ensures { option_map (λ s. s.now) result ≡ as_str (stands_for self.now) };

    /// The whole number that this is, from 0 to 2^64 - 1.
    fn whole_number(&self) -> Option<u64>
        ensures { result ≡ option_and_then as_u64 (as_number (stands_for self.now)) };

    /// The truth value that this is.
    fn truth(&self) -> Option<bool>
        ensures { result ≡ as_bool (stands_for self.now) };

    /// The values of which this is the array.
    fn values(&self) -> Option<&[Self]>
        ensures { option_map (λ vs. items_of (map stands_for vs.now)) result
            ≡ as_array (stands_for self.now) };

    /// Whether this is an object.
    fn has_members(&self) -> bool
        ensures { result ≡ is_some (as_object (stands_for self.now)) };
}

impl Tree for Value {
    ghost stands_for = { view };

    fn member(&self, name: &str) -> Option<&Value> {
        self.get(name)
    }

    fn text(&self) -> Option<&str> {
        self.as_str()
    }

    fn whole_number(&self) -> Option<u64> {
        self.as_u64()
    }

    fn truth(&self) -> Option<bool> {
        self.as_bool()
    }

    fn values(&self) -> Option<&[Value]> {
        match self.as_array() {
            Some(values) => Some(values.as_slice()),
            None => None,
        }
    }

    fn has_members(&self) -> bool {
        self.is_object()
    }
}
