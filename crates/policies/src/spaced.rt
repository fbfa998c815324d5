/// A policy that is passed the last of every so many questions, and answers none to the others.
#[derive(Clone, Copy)]
pub struct Spaced<P> {
    every: u8,
    kept: u8,
    under: P,
}

mod calls;
