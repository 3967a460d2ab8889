// Prints what the room check answers at the extremes: of lines of no token up to the most that a number can say, and of buffers of no number, of one under
// six for each token, of six for each, and of the most. What it must print, the file `stdout`, is not of its own making: `compare/record` works out cases and
// answers in 128 bits.
#![tactic(auto)]

use row::has_room;
use std::io;

// Tokens, then the numbers of the buffer. From 3074457345618258603 tokens on six for each are more than a number can say. There the buffers in the middle
// are what a product comes to that wraps, and one under it; of 2^63 tokens that is 0, to which their double wraps as well.
const CASES: [(usize, usize); 36] = [
    (0, 0),
    (0, 18446744073709551615),
    (1, 0),
    (1, 5),
    (1, 6),
    (1, 18446744073709551615),
    (2, 0),
    (2, 11),
    (2, 12),
    (2, 18446744073709551615),
    (4095, 0),
    (4095, 24569),
    (4095, 24570),
    (4095, 18446744073709551615),
    (4096, 0),
    (4096, 24575),
    (4096, 24576),
    (4096, 18446744073709551615),
    (4294967296, 0),
    (4294967296, 25769803775),
    (4294967296, 25769803776),
    (4294967296, 18446744073709551615),
    (3074457345618258602, 0),
    (3074457345618258602, 18446744073709551611),
    (3074457345618258602, 18446744073709551612),
    (3074457345618258602, 18446744073709551615),
    (3074457345618258603, 0),
    (3074457345618258603, 1),
    (3074457345618258603, 2),
    (3074457345618258603, 18446744073709551615),
    (9223372036854775808, 0),
    (9223372036854775808, 18446744073709551615),
    (18446744073709551615, 0),
    (18446744073709551615, 18446744073709551609),
    (18446744073709551615, 18446744073709551610),
    (18446744073709551615, 18446744073709551615),
];

fn main(rt: HostRuntime) -> io::Result<()> {
    for (tokens, room) in CASES {
        let answer = if has_room(room, tokens) { "yes" } else { "no" };
        println!(rt; "{tokens} tokens, {room} numbers: {answer}")?;
    }
    Ok(())
}
