// Damaged images, order 8. What a rescue needs of bytes, keeps, writes and reports is in specs/Rescue.antt, and its laws in proofs/Laws.antt.
#![tactic(auto)]

// What a rescue reports: the length of the image that it wrote, how many nonzero words it cleared, how many rows it kept, and in the bits of a number the place
// of each row that it dropped.
#[derive(Clone, Copy)]
pub struct Report {
    pub length: usize,
    pub cleared: u16,
    pub kept: u16,
    pub dropped: u16,
}
