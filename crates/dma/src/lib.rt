// The DMA unit (src/dma.rs): general transfers, the H-blank pass and one master cycle of both.
#![tactic(auto)]

pub mod cycle;
pub mod general;
pub mod pass;
