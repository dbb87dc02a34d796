// Lists by the number of a month.
ghost use Rattle.std.specs.Prelude.{◌≡◌};
ghost use Rattle.book.specs.Places.{of_month};

/// What stands for this month, which counts from 1.
pub(crate) fn of_month<T: Copy>(items: &[T], month: usize) -> Option<T>
    ensures { result ≡ of_month items.now month }
{
    items.get(month.checked_sub(1)?).copied()
}
