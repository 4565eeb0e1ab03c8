//! The plain form of the rows: one vector.

ghost use Rattle.std.specs.Prelude.{◌≡◌, ◌≢◌, ◌<◌, All, IfSome, IfNone, length};
ghost use Rattle.std.specs.List.{HoldsAt};
ghost use Rattle.row_store.specs.inner.Rows.{NumbersRise};

use crate::{Row, RowStore};
use std::alloc::{AllocFailed, Global};
use std::marker::Model;

/// The rows in one vector, found by a binary search over their numbers.
#[derive(Drop)]
pub struct PlainRows<T> {
    rows: Vec<Row<T>>,
}

impl<T> Model for PlainRows<T> {
    ghost use Rattle.std.specs.Prelude.{◌-◌, ℕ, List, vec_len, vec_capacity};
    ghost use Rattle.row_store.specs.declared.Row.{Row};
    ghost use Rattle.row_store.specs.inner.Rows.{NumbersRise};

    ghost Value = { List (Row T) × ℕ };

    ghost view = { λ s. (s.rows.items, vec_capacity s.rows - vec_len s.rows) };

    ghost invariant = { λ s. NumbersRise s.rows.items };
}

impl<T: Drop> RowStore<T> for PlainRows<T> {
    ghost rows = { λ s. s.0 };

    ghost room = { λ s. s.1 };

    fn make(alloc: Global) -> Self {
        PlainRows {
            rows: Vec::new(alloc),
        }
    }

    fn numbers_rise(&self) {
        let _rows = &self.rows;
    }

    fn push(&mut self, number: u32, item: T, mask: u32) -> Result<(), AllocFailed<T>> {
        match self.rows.push(Row { number, item, mask }) {
            Ok(()) => Ok(()),
            Err(failed) => {
                let AllocFailed { value } = failed;
                let Row {
                    number: _,
                    item,
                    mask: _,
                } = value;
                Err(AllocFailed { value: item })
            }
        }
    }

    fn front(&mut self, d: u32) -> Option<u32> {
        self.rows
            .iter()
            .find(|row| row.stands_in(d))
            .map(|row| row.number)
    }

    fn get(&self, number: u32) -> Option<&T> {
        let place = place_of(&self.rows, number)?;
        Some(&self.rows[place].item)
    }

    fn get_mut(&mut self, number: u32) -> Option<&mut T> {
        let place = place_of(&self.rows, number)?;
        let row = &mut self.rows[place];
        Some(&mut row.item)
    }

    fn unlink(&mut self, number: u32, d: u32) -> bool {
        let Some(place) = place_of(&self.rows, number) else {
            return false;
        };
        let row = &mut self.rows[place];
        let stood = row.stands_in(d);
        row.leave(d);
        stood
    }

    fn remove(&mut self, number: u32) -> Option<T> {
        let place = place_of(&self.rows, number)?;
        let Row {
            number: _,
            item,
            mask: _,
        } = self.rows.remove(place);
        Some(item)
    }

    fn len(&self) -> usize {
        self.rows.len()
    }
}

/// The index of the row of that number.
fn place_of<T>(rows: &[Row<T>], number: u32) -> Option<usize>
    requires { NumbersRise rows.now }
    ensures inside { IfSome result (λ place. place < length rows.now) }
    ensures found { IfSome result (HoldsAt (λ row. row.number ≡ number) rows.now) }
    ensures missing { IfNone result (All (λ row. row.number ≢ number) rows.now) }
{
    rows.binary_search_by_key(&number, |row| row.number).ok()
}
