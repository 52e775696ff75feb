// The ledger: the rows that an account has posted.
ghost use Rattle.std.specs.Prelude.{◌≡◌, ◌*◌, ◌≤◌, ℤ, pos, neg_ℤ, ◌≤ℤ◌, vec_len, vec_capacity};
ghost use Rattle.statement.specs.Rows.{balance_of};
ghost use Rattle.account.specs.declared.ledger.LedgerFault.TheVariants.{NoMemory};

use statement::row::Row;
use std::alloc::AllocError;

mod posting;
pub mod rows;

// Rows in the order of their posting, room for `limit` of them, and their sum.
// It is lent and never compared: two with the same rows may differ in their room.
#[derive(Drop)]
pub struct Ledger {
    rows: Vec<Row>,
    limit: usize,
    balance: i64,
    ghost most: { limit ≤ 65536 },
    ghost fits: { vec_len rows ≤ limit },
    ghost reserved: { limit ≤ vec_capacity rows },
    ghost summed: { balance ≡ balance_of rows.items },
    ghost below: { balance ≤ℤ pos (100000000000 * vec_len rows) },
    ghost above: { neg_ℤ (pos (100000000000 * vec_len rows)) ≤ℤ balance },
}

// Why a ledger cannot be made.
#[derive(Clone, Copy, Debug, PartialEq, Eq)]
pub enum LedgerFault {
    TooManyRows,
    NoMemory,
}

impl From<AllocError> for LedgerFault {
    ghost from_gives = { λ _ fault. fault ≡ NoMemory };

    fn from(_error: AllocError) -> LedgerFault {
        LedgerFault::NoMemory
    }
}
