// A plain enumerator for small gyms, to hold the library to: a gym and its file's text, all its
// paths, and the listings that are due. It shares no code with the search and goes by the documents
// alone; for `awaits` it tries completions. Its functions are proved safe and ending and promise
// nothing more: what tests them is that the library agrees.
pub mod cells;
pub mod completed;
pub mod due;
pub mod gym;
pub mod paths;
pub mod rows;
pub mod text;
