// Words of rows: read and stored, whatever the words are and however many a row has. In place of `rows[i][c]`, since what is said of it is said of columns.
ghost use Rattle.std.specs.Prelude.{◌≡◌, ◌<◌, length, get_or};
ghost use Rattle.rows.specs.Columns.{column, StoredIn};

// The words of a row: numbers. What a row without such a word has in its place is 0.
pub trait Word: Copy {
    ghost nothing: { Self };
}

impl Word for u16 {
    ghost nothing = { 0 };
}

impl Word for u64 {
    ghost nothing = { 0 };
}

// Word c of row i.
pub fn get<T: Word, const N: usize>(rows: &[[T; N]], i: usize, c: usize) -> T
    requires { (i < length rows.now) × (c < N) }
    ensures { result ≡ get_or (column T.nothing c rows.now) i T.nothing }
{
    let row: &[T] = &rows[i];
    row[c]
}

// Stores word c of row i.
pub fn put<T: Word, const N: usize>(rows: &mut [[T; N]], i: usize, c: usize, v: T)
    requires { (i < length rows.old) × (c < N) }
    ensures { StoredIn T.nothing rows.old i c v rows.new }
{
    let row: &mut [T] = &mut rows[i];
    row[c] = v;
}
