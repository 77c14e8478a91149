// How many places of a slice hold a number.
ghost use Rattle.std.specs.Prelude.{◌≡◌, count_by};
ghost use Rattle.std.specs.List.{list_all};

// How many numbers of a slice are `number`.
pub fn count<T: PartialEq + Drop>(places: &[T], number: T) -> usize
    ensures { result ≡ count_by (λ x. T.eq x number) places.now }
{
    places.iter().filter(|place| **place == number).count()
}

// How many rows of a slice have the number throughout.
pub fn count_rows<T: PartialEq + Drop, const N: usize>(rows: &[[T; N]], number: T) -> usize
    ensures { result ≡ count_by (list_all (λ x. T.eq x number)) rows.now }
{
    rows.iter()
        .filter(
            |row| -> bool
                ensures { result ≡ list_all (λ x. T.eq x number) row.now.now }
            { row.iter().all(|x| *x == number) },
        )
        .count()
}
