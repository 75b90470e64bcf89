//! Texts of the smallest job: 00h at address 0.

/// Its image, as Intel HEX.
pub const IMAGE: &str = ":0100000000FF\n:00000001FF\n";

/// Its script for a chip in three-byte mode that holds FFh there: write enable, program, poll.
pub const ONE_BYTE: &str =
    "norscript 1\nx 00000110\nx 0000001000000000000000000000000000000000\np 00000101........\n\
        end 3\n";
