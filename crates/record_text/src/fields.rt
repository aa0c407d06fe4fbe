// The values that lines carry.

// The numbers of the line under `size width height values`.
#[derive(Clone, Copy)]
pub struct SizeFields {
    pub n: u32,
    pub width: u32,
    pub height: u32,
    pub values: u32,
}
