// The buffers that the run works in, of fixed lengths. Leans on nothing.

// The words of the list that is kept, in front.
pub(crate) type ListBuffer = [u32; 20_480];

// Bytes that are laid and not handed over, in front.
pub(crate) type OutBuffer = [u8; 262_144];

// What a lift of a list of 4,096 tokens takes: two trees, the work and the output.
#[derive(Drop)]
pub(crate) struct Scratch {
    pub tree: [u32; 86_016],
    pub again: [u32; 86_016],
    pub work: [u32; 262_208],
    pub output: ListBuffer,
}
