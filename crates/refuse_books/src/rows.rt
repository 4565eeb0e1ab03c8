//! The store of a script, and calls on it.

ghost use Rattle.std.specs.Prelude.{◌≡◌, ◌<◌, ◌+◌, All, OnErr, OnOk};

use anyhow::{Result, bail};
use call_window::script::Stage;
use call_window::{Window, done};
use record_list::RecordList;
use row_store::{QUEUES, RowStore};
use std::alloc::{AllocError, Global};
use std::fmt::Write;
use std::mem;

/// The queues in which the rows are, row by row, and again from the first.
const MASKS: [u32; 8] = [40, 8, 32, 0xFFFF_FFFF, 0, 33, 1, 0x8000_0000];

/// The most rows of a store.
const ROWS_MAX: u32 = 1_000;

/// The store that calls are made on, and the number of its next row. The item of a row is its
/// number.
#[derive(Drop)]
pub struct Rows {
    alloc: Global,
    rows: RecordList<u64>,
    next: u32,
    ghost below: { All (λ row. row.number < next) rows.rows },
}

/// Adds a row whose number is above those of all others.
fn push_row(rows: &mut RecordList<u64>, number: u32) -> Result<(), AllocError>
    requires { All (λ row. row.number < number) rows.old.rows }
    ensures ok { OnOk result (All (λ row. row.number < number + 1) rows.new.rows) }
    ensures err { OnErr result (rows.new.rows ≡ rows.old.rows) }
{
    let mask = MASKS[number as usize % 8];
    Ok(rows.push(number, u64::from(number), mask)?)
}

/// Appends the rows of a queue, which leave it.
fn drain(told: &mut String, rows: &mut RecordList<u64>, d: u32) -> Result<(), AllocError> {
    write!(told, "; queue {d}:")?;
    for _ in 0..rows.len() {
        if let Some(number) = rows.front(d) {
            let linked = rows.unlink(number, d);
            write!(told, " {number} {linked}")?;
        }
    }
    Ok(())
}

impl Rows {
    /// An empty store.
    pub(crate) fn new(alloc: Global) -> Rows {
        Rows {
            alloc,
            rows: RowStore::make(alloc),
            next: 0,
        }
    }

    /// Adds the next row.
    fn add(&mut self) -> Result<(), AllocError>
        requires { self.old.next < ROWS_MAX }
    {
        let number = self.next;
        let pushed = push_row(&mut self.rows, number);
        if pushed.is_ok() {
            self.next = number + 1;
        }
        pushed
    }

    /// A new store of a number of rows.
    fn fill(&mut self, count: u32) -> Result<String> {
        *self = Rows::new(self.alloc);
        for _ in 0..count.min(ROWS_MAX) {
            if self.next < ROWS_MAX {
                self.add()?;
            }
        }
        Ok(done(self.alloc, Ok(()))?)
    }

    /// Adds the next row.
    fn push(&mut self, window: &Window) -> Result<String> {
        if self.next >= ROWS_MAX {
            bail!("there are {ROWS_MAX} rows");
        }
        window.begin()?;
        let made = self.add();
        window.end()?;
        Ok(done(self.alloc, made)?)
    }

    /// Appends the item of each row.
    fn push_items(&self, told: &mut String) -> Result<(), AllocError> {
        for number in 0..=self.next {
            match self.rows.get(number) {
                Some(item) => write!(told, " {item}")?,
                None => told.push_str(" none")?,
            }
        }
        Ok(())
    }

    /// Appends the front of each queue.
    fn push_fronts(&mut self, told: &mut String) -> Result<(), AllocError> {
        for d in 0..QUEUES {
            let front = self.rows.front(d);
            write!(told, " {front:?}")?;
        }
        Ok(())
    }

    /// All that the store shows and keeps.
    fn state(&mut self) -> Result<String, AllocError> {
        let mut told = format!(in self.alloc; "{} rows:", self.rows.len())?;
        self.push_items(&mut told)?;
        told.push_str("; fronts:")?;
        self.push_fronts(&mut told)?;
        Ok(told)
    }

    /// The rows of each queue. The store is empty then.
    fn queues(&mut self) -> Result<String, AllocError> {
        let Rows { mut rows, .. } = mem::replace(self, Rows::new(self.alloc));
        let mut told = format!(in self.alloc; "{} rows", rows.len())?;
        for d in 0..QUEUES {
            drain(&mut told, &mut rows, d)?;
        }
        Ok(told)
    }
}

impl Stage for Rows {
    fn answer(&mut self, _rt: &HostRuntime, window: &Window<'_>, call: &str) -> Result<String> {
        match call {
            "push" => self.push(window),
            "state" => Ok(self.state()?),
            "queues" => Ok(self.queues()?),
            _ => match call.strip_prefix("rows ") {
                Some(count) => self.fill(count.parse::<u32>()?),
                None => bail!("{call} is no call"),
            },
        }
    }
}
