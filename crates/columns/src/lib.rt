// The account columns of a book, an account's entries of them, and the limits on these.
#![tactic(auto)]

ghost use Rattle.std.specs.Prelude.{◌≡◌, ◌<◌, ◌≤◌};
ghost use Rattle.refusals.specs.Refusals.{most_days};
ghost use Rattle.columns.specs.Columns.{accounts, account_at, count_at, zero_columns, all_below, sum_below};
ghost use Rattle.columns.specs.Limits.{position_holds, volume_holds, account_holds, holds_at, volumes_hold, positions_hold};

use integers::is_within;
use prices::LARGEST_PRICE;

// Accounts are 0 to 1,023.
pub const ACCOUNTS: usize = 1_024;

pub const MOST_VOLUME: u32 = 2_000_000;

pub const MOST_POSITION: i64 = 1_200_000;
// What an account's cash may rise or fall by in a day.
pub const MOST_POSTING: u64 = 2_700_000_000_000_000;

// An account's opening and present position, its cost and contracts bought plus sold today (v), and its cash.
#[derive(Clone, Copy, Debug, PartialEq, Eq)]
pub struct Account {
    pub opening: i64,
    pub position: i64,
    pub cost: i64,
    pub volume: u32,
    pub cash: i64,
}

// A position's limit is a fixed number, so that the machine makes both comparisons in one.
fn position_holds(position: i64) -> bool
    ensures { result ≡ position_holds position }
{
    (-MOST_POSITION..=MOST_POSITION).contains(&position)
}

fn volume_holds(volume: u32) -> bool
    ensures { result ≡ volume_holds volume }
{
    volume <= MOST_VOLUME
}

impl Account {
    // Whether the account is within its limits, in document 01's order. The product of days and a day's largest posting has to
    // fit: days within their own limit are required.
    pub fn holds(self, closed: u32) -> bool
        requires { closed ≤ most_days }
        ensures { result ≡ account_holds closed self }
    {
        position_holds(self.opening)
            & position_holds(self.position)
            & volume_holds(self.volume)
            & is_within(self.cost, u64::from(self.volume) * u64::from(LARGEST_PRICE))
            & is_within(self.cash, u64::from(closed) * MOST_POSTING)
    }
}

// For each account, the opening and the present position, the cost and the contracts bought plus sold today (v), and the cash. They
// are arrays beside one another and no array of accounts: document 01 names them so, and a report copies two of them whole.
#[derive(Clone, Copy)]
pub struct Columns {
    pub opening: [i64; ACCOUNTS],
    pub position: [i64; ACCOUNTS],
    pub cost: [i64; ACCOUNTS],
    pub volume: [u32; ACCOUNTS],
    pub cash: [i64; ACCOUNTS],
}

impl Columns {
    pub fn zeros() -> Self
        ensures { result ≡ zero_columns accounts }
    {
        Columns {
            opening: [0; ACCOUNTS],
            position: [0; ACCOUNTS],
            cost: [0; ACCOUNTS],
            volume: [0; ACCOUNTS],
            cash: [0; ACCOUNTS],
        }
    }

    // An account's entries. It has to be one of the accounts.
    pub fn account(&self, i: usize) -> Account
        requires { i < accounts }
        ensures { result ≡ account_at self.now i }
    {
        Account {
            opening: self.opening[i],
            position: self.position[i],
            cost: self.cost[i],
            volume: self.volume[i],
            cash: self.cash[i],
        }
    }

    // Whether every account is within its limits, up to the first that is not.
    pub fn hold(&self, closed: u32) -> bool
        requires { closed ≤ most_days }
        ensures { result ≡ all_below accounts (holds_at closed self.now) }
    {
        for i in 0..ACCOUNTS {
            if !self.account(i).holds(closed) {
                return false;
            }
        }
        true
    }

    // Whether every account's v is within its limit, and every account's position.
    pub fn volumes_hold(&self) -> bool
        ensures { result ≡ volumes_hold accounts self.now.volume }
    {
        for i in 0..ACCOUNTS {
            if !volume_holds(self.volume[i]) {
                return false;
            }
        }
        true
    }

    pub fn positions_hold(&self) -> bool
        ensures { result ≡ positions_hold accounts self.now.position }
    {
        for i in 0..ACCOUNTS {
            if !position_holds(self.position[i]) {
                return false;
            }
        }
        true
    }

    // The contracts that all accounts bought plus sold today.
    // No `sum()`: tried, and the search for what it requires didn't end, so the proof didn't close.
    pub fn total_volume(&self) -> u64
        ensures { result ≡ sum_below accounts (count_at self.now.volume) }
    {
        let mut total: u64 = 0;
        for &volume in &self.volume {
            total += u64::from(volume);
        }
        total
    }
}
