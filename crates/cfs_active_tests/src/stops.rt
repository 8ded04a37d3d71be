//! The power stops at each device step of a script.

/// What stands before each script: 100 bytes and behind them 100 others, in a block.
pub(crate) const BEGUN: &str = "\
write 0 100 a
dispatch 1
apply 1
apply 1
finish 1
append 100 c
dispatch 2
apply 2
apply 2
finish 2";

/// A script, and what stands after a stop at each of its writing steps, or behind the last one: the
/// file that is left where all that is not durable is lost, and where all is kept.
#[derive(Clone, Copy)]
pub(crate) struct Stops {
    pub(crate) script: &'static str,
    pub(crate) left: &'static str,
}

/// All scripts.
pub(crate) const STOPS: [Stops; 4] = [WRITE, TRUNCATE, COVERED_WRITE, TWO_BLOCKS];

/// Two steps at the gate, two on the block, two on the size word, and two at the gate again.
const WRITE: Stops = Stops {
    script: "write 150 100 b\ndispatch 3\napply 3\napply 3\nfinish 3",
    left: "\
1 -> as acknowledged: 100a 100c | as acknowledged: 100a 100c
2 -> as acknowledged: 100a 100c | with the change in doubt: 100a 50c 100b
3 -> as acknowledged: 100a 50c 100b | as acknowledged: 100a 50c 100b
4 -> as acknowledged: 100a 50c 100b | as acknowledged: 100a 50c 100b
5 -> as acknowledged: 100a 50c 100b | as acknowledged: 100a 50c 100b
6 -> as acknowledged: 100a 50c 100b | as acknowledged: 100a 50c 100b
7 -> as acknowledged: 100a 50c 100b | as acknowledged: 100a 50c 100b
8 -> as acknowledged: 100a 50c 100b | as acknowledged: 100a 50c 100b
9 -> as acknowledged: 100a 50c 100b | as acknowledged: 100a 50c 100b
",
};

/// The same steps; those on the block clear what is cut off.
const TRUNCATE: Stops = Stops {
    script: "truncate 50\ndispatch 3\napply 3\napply 3\nfinish 3",
    left: "\
1 -> as acknowledged: 100a 100c | as acknowledged: 100a 100c
2 -> as acknowledged: 100a 100c | with the change in doubt: 50a
3 -> as acknowledged: 50a | as acknowledged: 50a
4 -> as acknowledged: 50a | as acknowledged: 50a
5 -> as acknowledged: 50a | as acknowledged: 50a
6 -> as acknowledged: 50a | as acknowledged: 50a
7 -> as acknowledged: 50a | as acknowledged: 50a
8 -> as acknowledged: 50a | as acknowledged: 50a
9 -> as acknowledged: 50a | as acknowledged: 50a
",
};

/// Two steps at the first gate, two at the second one, two for the mark of the first write, which
/// the second one covers, and two more that close its gate.
const COVERED_WRITE: Stops = Stops {
    script: "write 150 50 b\nwrite 140 100 d\nskip 3\ndispatch 4",
    left: "\
1 -> as acknowledged: 100a 100c | as acknowledged: 100a 100c
2 -> as acknowledged: 100a 100c | with the change in doubt: 100a 50c 50b
3 -> as acknowledged: 100a 50c 50b | as acknowledged: 100a 50c 50b
4 -> as acknowledged: 100a 50c 50b | with the change in doubt: 100a 40c 100d
5 -> as acknowledged: 100a 40c 100d | as acknowledged: 100a 40c 100d
6 -> as acknowledged: 100a 40c 100d | as acknowledged: 100a 40c 100d
7 -> as acknowledged: 100a 40c 100d | as acknowledged: 100a 40c 100d
8 -> as acknowledged: 100a 40c 100d | as acknowledged: 100a 40c 100d
9 -> as acknowledged: 100a 40c 100d | as acknowledged: 100a 40c 100d
",
};

/// Two steps tag a block for the part of the write that has none, two open the gate, four write and
/// flush both blocks, two set the size word, and two close the gate.
const TWO_BLOCKS: Stops = Stops {
    script: "write 4000 200 b\ndispatch 3\napply 3\napply 3\napply 3\napply 3\nfinish 3",
    left: "\
1 -> as acknowledged: 100a 100c | as acknowledged: 100a 100c
2 -> as acknowledged: 100a 100c | as acknowledged: 100a 100c
3 -> as acknowledged: 100a 100c | as acknowledged: 100a 100c
4 -> as acknowledged: 100a 100c | with the change in doubt: 100a 100c 3800. 200b
5 -> as acknowledged: 100a 100c 3800. 200b | as acknowledged: 100a 100c 3800. 200b
6 -> as acknowledged: 100a 100c 3800. 200b | as acknowledged: 100a 100c 3800. 200b
7 -> as acknowledged: 100a 100c 3800. 200b | as acknowledged: 100a 100c 3800. 200b
8 -> as acknowledged: 100a 100c 3800. 200b | as acknowledged: 100a 100c 3800. 200b
9 -> as acknowledged: 100a 100c 3800. 200b | as acknowledged: 100a 100c 3800. 200b
10 -> as acknowledged: 100a 100c 3800. 200b | as acknowledged: 100a 100c 3800. 200b
11 -> as acknowledged: 100a 100c 3800. 200b | as acknowledged: 100a 100c 3800. 200b
12 -> as acknowledged: 100a 100c 3800. 200b | as acknowledged: 100a 100c 3800. 200b
13 -> as acknowledged: 100a 100c 3800. 200b | as acknowledged: 100a 100c 3800. 200b
",
};
