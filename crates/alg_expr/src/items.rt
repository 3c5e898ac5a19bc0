ghost use Rattle.std.specs.Prelude.{◌≡◌};

use std::marker::Model;

/// A list that is kept. Contracts see the list itself, so that what holds one can be compared with a definition.
#[derive(Debug, Drop)]
pub struct Items<T> {
    items: Vec<T>,
}

impl<T> Model for Items<T> {
    ghost use Rattle.std.specs.Prelude.{List};
    ghost use Rattle.std.specs.Coded.{coded_list};

    ghost Value = { List T };

    ghost coded = { coded_list T.code };

    ghost view = { λ it. it.items.items };
}

impl<T> Items<T> {
    pub fn of(v: Vec<T>) -> Items<T>
        ensures { result ≡ v.items }
    {
        Items { items: v }
    }

    pub fn as_slice(&self) -> &[T]
        ensures { result.now ≡ self.now }
    {
        self.items.as_slice()
    }
}
