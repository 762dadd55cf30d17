// Bytes moved by a DMA channel over the bus (src/dma.rs): one byte, one HDMA unit, the bytes of a table.
#![tactic(auto)]

pub mod bits;
pub mod byte;
pub mod pattern;
pub mod table;
pub mod unit;
