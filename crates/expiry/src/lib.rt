// The months in which a contract can end, and the day of each month's last Friday.
#![tactic(auto)]

ghost use Rattle.std.specs.Prelude.{◌≡◌};
ghost use Rattle.expiry.specs.Table.{is_in_table, last_friday};

mod table;

use table::LAST_FRIDAYS;

// The years of the table.
pub const FIRST_YEAR: u16 = 2025;

pub const LAST_YEAR: u16 = 2050;
// The months of a year.
pub const MONTHS: u8 = 12;

// The numbers of a year and of a month, whether or not there is such a month.
#[derive(Clone, Copy, Debug, PartialEq, Eq)]
pub struct Month {
    pub year: u16,
    pub month: u8,
}

impl Month {
    // Each number is tested by itself.
    pub fn is_in_table(self) -> bool
        ensures { result ≡ is_in_table self }
    {
        (FIRST_YEAR..=LAST_YEAR).contains(&self.year) & (1..=MONTHS).contains(&self.month)
    }

    // The day of the month of its last Friday, 0 outside the table.
    #[tactic(auto, unfolding(crate::specs::Table::last_friday))]
    pub fn last_friday(self) -> u8
        ensures { result ≡ last_friday self }
    {
        if !self.is_in_table() {
            return 0;
        }
        let years = usize::from(self.year - FIRST_YEAR);
        LAST_FRIDAYS[usize::from(MONTHS) * years + usize::from(self.month - 1)]
    }
}
