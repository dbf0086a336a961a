/// What a pass knows. No value of it is made. A clause reads an array as a list, of any length.
pub struct View {
    pub number: u64,
    pub numbers: [u64; 0],
    pub passes: u64,
    pub loads: u64,
    pub last: (u64, u64),
    pub ready: [u64; 0],
    pub tried: [u64; 0],
    pub taken: [u64; 0],
    pub duties: [u64; 0],
    pub begins: [(u64, u64); 0],
    pub finishes: [(u64, u64); 0],
    pub spans: [(u64, u64, u64, u64); 0],
    pub counted: [(u64, u64); 0],
    pub published: [(u64, u64); 0],
    pub written: [(u64, u64); 0],
}
