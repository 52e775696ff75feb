// Making a ledger and reading it.
ghost use Rattle.std.specs.Prelude.{◌≡◌, ◌+◌, ◌-◌, ◌<◌, ◌≤◌, [], ◌∷◌, ◌++◌, length, pos, ◌+ℤ◌, neg_ℤ, ◌≤ℤ◌, Err};
ghost use Rattle.statement.specs.Rows.{balance_of};
ghost use Rattle.account.specs.Ledgers.{rows_of, limit_of, free_of, Begins, Modest};

use crate::ledger::{Ledger, LedgerFault};
use statement::row::Row;
use std::alloc::Global;

impl Ledger {
    // A ledger with room for so many rows, at most 65,536. The room is taken here, so that posting never wants memory.
    pub fn new(heap: Global, limit: usize) -> Result<Ledger, LedgerFault>
        ensures { Begins limit result }
    {
        if limit > 65_536 {
            return Err(LedgerFault::TooManyRows);
        }
        Ok(Ledger {
            rows: Vec::with_capacity(heap, limit)?,
            limit,
            balance: 0,
        })
    }

    // The rows in the order of their posting.
    pub fn rows(&self) -> &[Row]
        ensures { result.now ≡ rows_of self.now }
    {
        self.rows.as_slice()
    }

    // The sum of the rows, in cents.
    pub fn balance(&self) -> i64
        ensures { result ≡ balance_of (rows_of self.now) }
    {
        self.balance
    }

    // How many rows can still be posted.
    pub fn free(&self) -> usize
        ensures value { result ≡ free_of self.now }
        ensures room { result + length (rows_of self.now) ≡ limit_of self.now }
    {
        self.limit - self.rows.len()
    }
}
