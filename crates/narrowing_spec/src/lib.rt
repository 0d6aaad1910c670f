// Narrowing a child under a parent, as document 01 has it. What is promised is in specs/Promises.antt. No function: here are the types of
// what narrowing answers; `narrowing` has the functions.
#![tactic(auto)]

// Why narrowing refuses: the parent doesn't read, or the child doesn't, by document 01's 1 or its 2; a constraint pair stands in either; the
// child's period is not within the parent's; some path escapes, with the grant's place, the mode and the levels.
#[derive(Clone, Copy)]
pub enum NarrowingError {
    NoParent,
    Structure,
    Validity,
    Constrained,
    Period,
    NotCovered { grant: u64, mode: u64, levels: u64 },
}

// A narrowing in document 01's numbers, as include/cap.h has them: 0 where the child is accepted; 21, the parent doesn't read; 1 or 2, the
// child; 19, a constraint pair; 18, the period; and 20, a path escapes, with the grant's place, the mode and the levels.
#[repr(C)]
#[derive(Clone, Copy)]
pub struct NarrowingNumbers {
    pub answer: u64,
    pub grant: u64,
    pub mode: u64,
    pub levels: u64,
}
