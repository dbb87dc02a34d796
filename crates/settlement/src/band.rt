// How large a total is beside the revenue.
ghost use Rattle.std.specs.Prelude.{◌≡◌, ◌*◌, ◌<◌, ◌≤◌, ◌↔◌, nat_abs};
ghost use Rattle.settlement.specs.Bands.{band};

/// Beyond a tenth of the revenue, within three hundredths of it, or between the two.
#[derive(Clone, Copy, Debug, PartialEq, Eq)]
pub enum Band {
    Beyond,
    Between,
    Within,
}

impl Band {
    /// Both are in units.
    pub fn of(total: i64, revenue: u64) -> Band
        ensures is { result ≡ band total revenue }
        ensures beyond { (result ≡ Band.Beyond) ↔ (revenue < 10 * nat_abs total) }
        ensures within { (result ≡ Band.Within) ↔ (100 * nat_abs total ≤ 3 * revenue) }
    {
        // In 128 bits these products fit for any total; a book's would fit in 64.
        let size = u128::from(total.unsigned_abs());
        let revenue = u128::from(revenue);
        if 10 * size > revenue {
            Band::Beyond
        } else if 100 * size <= 3 * revenue {
            Band::Within
        } else {
            Band::Between
        }
    }
}
