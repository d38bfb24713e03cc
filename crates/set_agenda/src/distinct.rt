ghost use Rattle.std.specs.Prelude.{◌≡◌};
ghost use Rattle.set_agenda.specs.Advance.{are_distinct};

/// Whether none of the numbers comes twice, as the members and the volumes of an agenda have to be.
pub fn are_distinct(numbers: &[u32]) -> bool
    ensures { result ≡ are_distinct numbers.now }
{
    for (i, number) in numbers.iter().enumerate() {
        if numbers[i + 1..].contains(number) {
            return false;
        }
    }
    true
}
