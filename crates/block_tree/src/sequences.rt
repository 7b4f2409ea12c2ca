ghost use Rattle.std.specs.Prelude.{◌≡◌};

use std::marker::Model;

/// A vector that contracts see as the list of its elements.
#[derive(Debug, Drop)]
pub struct Sequence<T> {
    elements: Vec<T>,
}

impl<T> Model for Sequence<T> {
    ghost use Rattle.std.specs.Prelude.{List};
    ghost use Rattle.std.specs.Coded.{coded_list};

    ghost Value = { List T };

    ghost coded = { coded_list T.code };

    ghost view = { λ s. s.elements.items };
}

impl<T> Sequence<T> {
    /// The elements of the vector.
    pub fn of(elements: Vec<T>) -> Sequence<T>
        ensures { result ≡ elements.items }
    {
        Sequence { elements }
    }

    /// The elements, in order.
    pub fn as_slice(&self) -> &[T]
        ensures { result.now ≡ self.now }
    {
        self.elements.as_slice()
    }
}
