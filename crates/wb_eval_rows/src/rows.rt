//! How are numbers found by two others in constant time, without memory of its own for each row?
//!
//! All rows lie in one list. A row that is too short is laid anew at its end, at least twice as long, so what was left takes little.

ghost use Rattle.std.specs.Prelude.{◌≡◌, ◌≢◌, ◌≤◌, ◌<◌, ◌⊎◌, ◌+◌, ◌-◌, ◌++◌, ◌∷◌, ℕ, suc, [], length, replicate, slice_index_or, IfOk, OnOk};
ghost use Rattle.std.specs.List.{slice_set};
ghost use Rattle.wb_eval_rows.specs.Rows.{at, row_at};
ghost use Rattle.wb_eval_rows.specs.Layout.{row_of};
ghost use Rattle.wb_eval_rows.specs.Inner.Lists.{HasSameNumbers, IsLonger, IsMore};

use std::alloc::{AllocError, Global};
use std::marker::Model;

// No number is so large, and no row begins or ends so far on.
const LOW: usize = 4_294_967_296;

// Where a row lies, and how long it is.
#[derive(Clone, Copy)]
struct Row {
    first: u32,
    width: u32,
}

/// Numbers of 32 bits by row and column. What is not written is 0. Where there is no such number or place, it is out of memory.
pub struct Rows {
    least: usize,
    rows: Vec<Row>,
    numbers: Vec<u32>,
}

impl Model for Rows {
    ghost use Rattle.std.specs.Prelude.{ℕ, List};
    ghost use Rattle.wb_eval_rows.specs.Layout.{rows_in, IsLaid};

    ghost Value = { List (List ℕ) };

    ghost view = { λ r. rows_in r.numbers.items r.rows.items };

    ghost invariant = { λ r. IsLaid r.numbers.items r.rows.items };
}

impl Rows {
    /// No rows. One that is written has room for so many numbers at least.
    pub fn new(alloc: Global, least: usize) -> Rows
        ensures { result ≡ [] }
    {
        Rows {
            least,
            rows: Vec::new(alloc),
            numbers: Vec::new(alloc),
        }
    }

    // Adds an empty row after the others.
    #[inline]
    fn add_row(&mut self) -> Result<(), AllocError>
        ensures { OnOk result (self.new ≡ self.old ++ [] ∷ []) }
    {
        self.rows.reserve(1)?;
        self.rows.push_reserved(Row { first: 0, width: 0 });
        Ok(())
    }

    /// The number at a place, or 0.
    #[inline(always)]
    pub fn get(&self, row: usize, column: usize) -> usize
        ensures { result ≡ at self.now row column }
    {
        if row < self.rows.len() {
            let place = self.rows[row];
            if column < place.width as usize {
                self.numbers[place.first as usize + column] as usize
            } else {
                0
            }
        } else {
            0
        }
    }

    /// Writes the number at a place, after as many rows as that takes.
    #[inline]
    pub fn put(&mut self, row: usize, column: usize, number: usize) -> Result<(), AllocError>
        ensures len { OnOk result ((length self.new ≡ length self.old) ⊎ (length self.new ≤ suc row)) }
        ensures set { OnOk result (at self.new row column ≡ number) }
        ensures columns { OnOk result ((other : ℕ) → other ≢ column → at self.new row other ≡ at self.old row other) }
        ensures rows { OnOk result ((i other : ℕ) → i ≢ row → at self.new i other ≡ at self.old i other) }
    {
        if number >= LOW {
            return Err(AllocError);
        }
        self.add_rows(row)?;
        self.set(row, column, number as u32)?;
        Ok(())
    }

    // Adds empty rows until this one is there.
    #[inline]
    fn add_rows(&mut self, row: usize) -> Result<(), AllocError>
        ensures there { OnOk result (row < length self.new) }
        ensures same { OnOk result (HasSameNumbers self.old self.new row) }
    {
        'rows: while self.rows.len() <= row {
            self.add_row()?;
        }
        Ok(())
    }

    // Writes the number at a place of a row that is there.
    #[inline(always)]
    fn set(&mut self, row: usize, column: usize, number: u32) -> Result<(), AllocError>
        requires { row < length self.old }
        ensures len { OnOk result (length self.new ≡ length self.old) }
        ensures set { OnOk result (at self.new row column ≡ number) }
        ensures columns { OnOk result ((other : ℕ) → other ≢ column → at self.new row other ≡ at self.old row other) }
        ensures rows { OnOk result ((i other : ℕ) → i ≢ row → at self.new i other ≡ at self.old i other) }
    {
        self.make_room(row, column)?;
        self.write(row, column, number);
        Ok(())
    }

    // Makes a row longer than a column.
    #[inline(always)]
    fn make_room(&mut self, row: usize, column: usize) -> Result<(), AllocError>
        requires { row < length self.old }
        ensures { OnOk result (IsLonger self.old self.new row column) }
    {
        let place = self.rows[row];
        if column < place.width as usize {
            Ok(())
        } else {
            self.lay(row, column)
        }
    }

    // Lays a row anew, longer than a column.
    #[inline(never)]
    fn lay(&mut self, row: usize, column: usize) -> Result<(), AllocError>
        requires { row < length self.old }
        ensures { OnOk result (IsLonger self.old self.new row column) }
    {
        let place = self.rows[row];
        let width = wider(place.width as usize, column, self.least)?;
        let first = self.numbers.len();
        if width >= LOW || first >= LOW {
            return Err(AllocError);
        }
        add_copy(&mut self.numbers, place, width)?;
        self.rows[row] = Row {
            first: first as u32,
            width: width as u32,
        };
        Ok(())
    }

    // Writes a number in a row that is longer than its column.
    #[inline(always)]
    fn write(&mut self, row: usize, column: usize, number: u32)
        requires there { row < length self.old }
        requires within { column < length (row_at self.old row) }
        ensures { self.new ≡ slice_set self.old row (slice_set (row_at self.old row) column number) }
    {
        let place = self.rows[row];
        self.numbers[place.first as usize + column] = number;
    }
}

impl Drop for Rows {
    fn drop(self) {
        let Rows {
            least: _,
            rows,
            numbers,
        } = self;
        drop(rows);
        drop(numbers);
    }
}

// How long a row is laid that is to be longer than a column.
fn wider(width: usize, column: usize, least: usize) -> Result<usize, AllocError>
    ensures width { IfOk result (λ wide. width ≤ wide) }
    ensures column { IfOk result (λ wide. column < wide) }
{
    match column.checked_add(1) {
        Some(needed) => Ok(needed.max(least).max(width.saturating_mul(2))),
        None => Err(AllocError),
    }
}

// Adds the numbers of a row after all others, and zeros until it is so long.
fn add_copy(numbers: &mut Vec<u32>, place: Row, width: usize) -> Result<(), AllocError>
    requires within { place.first + place.width ≤ length numbers.old.items }
    requires wider { place.width ≤ width }
    ensures ok { OnOk result (numbers.new.items ≡ numbers.old.items ++ (row_of numbers.old.items place ++ replicate (width - place.width) 0)) }
    ensures more { IsMore numbers.old.items numbers.new.items }
{
    let first = place.first as usize;
    let before = place.width as usize;
    if before > 0 {
        numbers.extend_from_within(first..first + before)?;
    }
    match numbers.len().checked_add(width - before) {
        Some(len) => numbers.resize(len, 0),
        None => Err(AllocError),
    }
}
