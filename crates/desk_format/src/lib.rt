// Text written into a buffer: words, numbers in decimal, bytes in hexadecimal.
#![tactic(auto)]

pub mod page;
