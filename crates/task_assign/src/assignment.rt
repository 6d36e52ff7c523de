//! An assignment with the numbers that show that its total is least.

ghost use Rattle.std.specs.Prelude.{◌≡◌, ◌<◌, ◌≤◌, ℕ, IfOk, length};
ghost use Rattle.task_assign.specs.Assignments.{AreGiven, IsModest, column_at, row_number_at, column_number_at};

use crate::costs::MAX_SIZE;
use fleet_base::path::NoMemory;
use std::alloc::Global;
use std::marker::Model;

/// The column of each row of a square, a number for each row and each column, and a total. It may
/// be made of any of them, which `check_assignment` judges.
#[derive(Drop)]
pub struct Assignment {
    columns: Vec<u32>,
    rows: Vec<i64>,
    column_numbers: Vec<i64>,
    total: u64,
}

impl Model for Assignment {
    ghost use Rattle.task_assign.specs.Assignments.{AreGiven, Pairs};

    ghost Value = { Pairs };

    ghost view = { λ a. record {
      columns = a.columns.items;
      rows = a.rows.items;
      column_numbers = a.column_numbers.items;
      total = a.total;
    } };

    ghost invariant = { λ a. AreGiven a.columns.items a.rows.items a.column_numbers.items };
}

impl Assignment {
    /// An assignment of these parts: the column of each row, the number of each row and of each
    /// column, and the total.
    pub fn given(
        columns: &[u32],
        rows: &[i64],
        column_numbers: &[i64],
        total: u64,
        alloc: Global,
    ) -> Result<Assignment, NoMemory>
        requires { AreGiven columns.now rows.now column_numbers.now }
        ensures { IfOk result (λ made. made ≡ record {
          columns = columns.now;
          rows = rows.now;
          column_numbers = column_numbers.now;
          total = total;
        }) }
    {
        Ok(Assignment {
            columns: Vec::from_slice(alloc, columns)?,
            rows: Vec::from_slice(alloc, rows)?,
            column_numbers: Vec::from_slice(alloc, column_numbers)?,
            total,
        })
    }

    /// The number of rows, which is that of the columns.
    pub fn size(&self) -> u32
        ensures counted { result ≡ length self.now.columns }
        ensures some { 1 ≤ result }
        ensures few { result ≤ MAX_SIZE }
    {
        self.columns.len() as u32
    }

    /// The column of the row.
    pub fn column(&self, row: u32) -> u32
        requires { row < length self.now.columns }
        ensures { result ≡ column_at self.now row }
    {
        self.columns[row as usize]
    }

    /// The number of the row.
    pub fn row_number(&self, row: u32) -> i64
        requires { row < length self.now.columns }
        ensures found { result ≡ row_number_at self.now row }
        ensures modest { IsModest result }
    {
        self.rows[row as usize]
    }

    /// The number of the column.
    pub fn column_number(&self, column: u32) -> i64
        requires { column < length self.now.columns }
        ensures found { result ≡ column_number_at self.now column }
        ensures modest { IsModest result }
    {
        self.column_numbers[column as usize]
    }

    /// The total.
    pub fn total(&self) -> u64
        ensures { result ≡ self.now.total }
    {
        self.total
    }

    // The columns of the rows, in order.
    pub(crate) fn columns(&self) -> &[u32]
        ensures { result.now ≡ self.now.columns }
    {
        &self.columns
    }
}
