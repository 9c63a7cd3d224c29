// The answer for the file or for the list alone, for who hands them over apart.
ghost use Rattle.std.specs.Prelude.{◌≡◌, ℕ};
ghost use Rattle.renumbering.specs.Alone.{file_size, list_size, told_by, sizes_by};

// A renumbered file without its list, by whatever tells a refusal's number.
pub fn file_answer<E>(sizes: Result<(usize, usize), E>) -> Result<usize, E>
    ensures answer { (number : E → ℕ) → told_by number result ≡ file_size (sizes_by number sizes) }
{
    sizes.map(|(file, _)| file)
}

// A list without its file.
pub fn list_answer<E>(sizes: Result<(usize, usize), E>) -> Result<usize, E>
    ensures answer { (number : E → ℕ) → told_by number result ≡ list_size (sizes_by number sizes) }
{
    sizes.map(|(_, list)| list)
}
