// H-blank DMA of one channel (src/dma.rs): the first entry of a frame, and a line.
#![tactic(auto)]

pub mod engine;
pub mod entry;
pub mod line;
