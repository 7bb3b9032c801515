// How the points of a row tape are held.

// A point in time with the mark of each of its four channels.
// Not an array: `blank` would hand out one of any `S`, and could then be called only where an `S` is proved to fit in memory.
#[derive(Clone, Copy)]
pub struct Row<S> {
    pub tick: u32,
    pub c0: S,
    pub c1: S,
    pub c2: S,
    pub c3: S,
}
