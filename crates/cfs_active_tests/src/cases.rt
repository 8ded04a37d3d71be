//! The cases: each line is a command and what it answers.

/// All cases.
pub(crate) const CASES: [&str; 14] = [
    TWO_APPENDS,
    OVERLAPPING_WRITES,
    COVERED_WRITE,
    READ_BETWEEN_WRITES,
    TRUNCATE_AND_REGROWTH,
    GATE_THAT_FAILS,
    CRASH_IN_A_LONG_WRITE,
    LONG_WRITE_OF_TWO_JOBS,
    NEED_BLOCKS,
    TOO_BIG,
    TWO_GRANTS,
    COVERED_WHILE_OUT,
    IN_DOUBT,
    STEPS_TRIED_AGAIN,
];

/// The second append stands behind the first, and in the block that the job of the first one has.
const TWO_APPENDS: &str = "\
append 100 a -> place=1 off=0 n=100 noops=0
append 50 b -> place=2 off=100 n=50 noops=0
show -> len=150 places=2 out=0 doubt=false
dispatch 1 -> out left=2
dispatch 1 -> not waiting
dispatch 2 -> behind 1
apply 1 -> made left=1
finish 1 -> unfinished left=1
apply 1 -> made left=0
apply 1 -> made left=0
show -> len=150 places=2 out=1 doubt=false
finish 1 -> retired slots=1
apply 1 -> not out
finish 1 -> not out
put_back 1 -> not out
dispatch 2 -> out left=2
apply 2 -> made left=1
apply 2 -> made left=0
finish 2 -> retired slots=1
read 0 1000 -> place=3
serve 3 -> bytes 100a 50b
serve 3 -> no read
crash 0 -> as acknowledged: 100a 50b
";

/// The later of two writes waits for the earlier one, which it overlaps. The job of that one is put
/// back once, and what it wrote stands.
const OVERLAPPING_WRITES: &str = "\
write 0 100 a -> place=1 off=0 n=100 noops=0
write 50 100 b -> place=2 off=50 n=100 noops=0
dispatch 2 -> behind 1
dispatch 1 -> out left=2
apply 1 -> made left=1
put_back 1 -> waits again
dispatch 2 -> behind 1
dispatch 1 -> out left=2
apply 1 -> made left=1
apply 1 -> made left=0
finish 1 -> retired slots=1
dispatch 2 -> out left=2
apply 2 -> made left=1
crash 0 -> as acknowledged: 50a 100b
";

/// A write that covers an earlier one makes a no-op of it, which is skipped.
const COVERED_WRITE: &str = "\
write 10 20 a -> place=1 off=10 n=20 noops=0
write 0 100 b -> place=2 off=0 n=100 noops=1
list 1 0 -> place=1 noop
dispatch 1 -> not waiting
skip 2 -> nothing
skip 1 -> closed slots=1
skip 1 -> nothing
list 1 0 -> place=2 waiting
dispatch 2 -> out left=2
apply 2 -> made left=1
apply 2 -> made left=0
finish 2 -> retired slots=1
read 0 300 -> place=3
serve 3 -> bytes 100b
crash 1 -> as acknowledged: 100b
";

/// A read waits for the write before it, and the write behind it waits for the read.
const READ_BETWEEN_WRITES: &str = "\
write 0 100 a -> place=1 off=0 n=100 noops=0
read 40 100 -> place=2
sync -> place=3
write 50 100 b -> place=4 off=50 n=100 noops=0
serve 2 -> behind 1
serve 3 -> behind 1
dispatch 1 -> out left=2
apply 1 -> made left=1
apply 1 -> made left=0
finish 1 -> retired slots=1
serve 3 -> bytes none
dispatch 4 -> behind 2
serve 2 -> bytes 60a
serve 2 -> no read
dispatch 4 -> out left=2
apply 4 -> made left=1
apply 4 -> made left=0
read 0 200 -> place=5
serve 5 -> behind 4
read 0 10 -> place=6
drop 6 -> dropped
drop 6 -> no read
finish 4 -> retired slots=1
serve 5 -> bytes 50a 100b
";

/// A truncate and a write behind the new end share a block: what was cut off reads as zeros.
const TRUNCATE_AND_REGROWTH: &str = "\
write 0 5000 a -> place=1 off=0 n=5000 noops=0
dispatch 1 -> out left=4
apply 1 -> made left=3
apply 1 -> made left=2
apply 1 -> made left=1
apply 1 -> made left=0
finish 1 -> retired slots=2
truncate 100 -> place=2 off=100 n=0 noops=0
write 200 50 b -> place=3 off=200 n=50 noops=0
show -> len=250 places=3 out=0 doubt=false
dispatch 3 -> behind 2
trim -> nothing
dispatch 2 -> out left=4
apply 2 -> made left=3
apply 2 -> made left=2
apply 2 -> made left=1
apply 2 -> made left=0
finish 2 -> retired slots=1
trim -> freed
trim -> nothing
dispatch 3 -> out left=2
apply 3 -> made left=1
apply 3 -> made left=0
finish 3 -> retired slots=1
read 50 1000 -> place=4
serve 4 -> bytes 50a 100. 50b
crash 0 -> as acknowledged: 100a 100. 50b
";

/// The gate of a write that is carried out can not be closed: two steps set the size word, and the
/// third one is the gate's. The write is applied, and its next job has no step.
const GATE_THAT_FAILS: &str = "\
write 0 10 a -> place=1 off=0 n=10 noops=0
dispatch 1 -> out left=2
apply 1 -> made left=1
apply 1 -> made left=0
stop 3 -> ok
finish 1 -> failed
revive -> ok
finish 1 -> not out
list 1 0 -> place=1 waiting
dispatch 1 -> out left=0
apply 1 -> made left=0
finish 1 -> retired slots=1
read 0 10 -> place=2
serve 2 -> bytes 10a
crash 0 -> as acknowledged: 10a
";

/// A crash comes when the first of two blocks is written and flushed, and the second one is written
/// alone. Each byte of it may then be lost, or another one.
const CRASH_IN_A_LONG_WRITE: &str = "\
write 0 8192 a -> place=1 off=0 n=8192 noops=0
dispatch 1 -> out left=4
apply 1 -> made left=3
apply 1 -> made left=2
apply 1 -> made left=1
crash 0 -> as acknowledged: 8192a
write 0 8192 b -> place=1 off=0 n=8192 noops=0
dispatch 1 -> out left=4
apply 1 -> made left=3
apply 1 -> made left=2
apply 1 -> made left=1
crash 1 -> as acknowledged: 8192b
write 0 8192 c -> place=1 off=0 n=8192 noops=0
dispatch 1 -> out left=4
apply 1 -> made left=3
apply 1 -> made left=2
apply 1 -> made left=1
crash 7 -> as acknowledged: 8192c
";

/// A write over three blocks takes two jobs.
const LONG_WRITE_OF_TWO_JOBS: &str = "\
write 4000 5000 a -> place=1 off=4000 n=5000 noops=0
dispatch 1 -> out left=4
apply 1 -> made left=3
apply 1 -> made left=2
apply 1 -> made left=1
finish 1 -> unfinished left=1
apply 1 -> made left=0
finish 1 -> more
dispatch 1 -> out left=2
apply 1 -> made left=1
apply 1 -> made left=0
finish 1 -> retired slots=2
read 3990 6000 -> place=2
serve 2 -> bytes 10. 5000a
crash 0 -> as acknowledged: 4000. 5000a
";

/// The stock has three blocks.
const NEED_BLOCKS: &str = "\
write 0 13000 a -> needs blocks=4
show -> len=0 places=0 out=0 doubt=false
append 8000 a -> place=1 off=0 n=8000 noops=0
write 8000 5000 b -> needs blocks=2
write 8000 1000 b -> place=2 off=8000 n=1000 noops=0
append 3289 c -> needs blocks=1
append 3288 c -> place=3 off=9000 n=3288 noops=0
crash 0 -> as acknowledged: 8000a 1000b 3288c
";

/// A file has at most 1,048,576 bytes. This is told first, whatever the stock has.
const TOO_BIG: &str = "\
write 1048576 1 a -> too big len=0
append 6000 a -> place=1 off=0 n=6000 noops=0
truncate 1048577 -> too big len=6000
write 1048570 7 a -> too big len=6000
write 1048570 6 b -> place=2 off=1048570 n=6 noops=0
append 1 c -> too big len=1048576
truncate 1048576 -> place=3 off=1048576 n=0 noops=0
crash 1 -> as acknowledged: 6000a 1042570. 6b
";

/// Two writes that overlap in part came under two grants.
const TWO_GRANTS: &str = "\
grant 5 -> ok
write 0 100 a -> place=1 off=0 n=100 noops=0
grant 6 -> ok
write 50 100 b -> place=2 off=50 n=100 noops=0
list 5 0 -> place=1 waiting
list 5 1 -> none
list 6 0 -> place=2 waiting
list 7 0 -> none
dispatch 2 -> behind 1
dispatch 1 -> out left=2
list 5 0 -> place=1 out
apply 1 -> made left=1
apply 1 -> made left=0
finish 1 -> retired slots=1
list 5 0 -> none
list 6 0 -> place=2 waiting
dispatch 2 -> out left=2
apply 2 -> made left=1
apply 2 -> made left=0
finish 2 -> retired slots=1
list 6 0 -> none
read 0 200 -> place=3
serve 3 -> bytes 50a 100b
";

/// A write that covers another makes no no-op of it while a job has it.
const COVERED_WHILE_OUT: &str = "\
write 10 20 a -> place=1 off=10 n=20 noops=0
dispatch 1 -> out left=2
write 0 100 b -> place=2 off=0 n=100 noops=0
skip 1 -> nothing
write 0 200 c -> place=3 off=0 n=200 noops=1
dispatch 2 -> not waiting
dispatch 3 -> behind 1
apply 1 -> made left=1
apply 1 -> made left=0
finish 1 -> retired slots=1
skip 2 -> closed slots=1
dispatch 3 -> out left=2
apply 3 -> made left=1
apply 3 -> made left=0
finish 3 -> retired slots=1
read 0 300 -> place=4
serve 4 -> bytes 200c
crash 0 -> as acknowledged: 200c
";

/// The first step of an admission writes the gate, and the second one persists it. Where that one
/// fails the change is in doubt, and later ones are refused until it is settled.
const IN_DOUBT: &str = "\
append 6000 a -> place=1 off=0 n=6000 noops=0
stop 2 -> ok
write 0 10 b -> in doubt
show -> len=6000 places=1 out=0 doubt=true
list 1 1 -> place=2 doubt
settle -> failed
write 0 10 b -> failed
revive -> ok
settle -> closed slots=1
settle -> nothing
write 0 10 c -> place=2 off=0 n=10 noops=0
stop 1 -> ok
write 0 20 d -> in doubt
revive -> ok
write 10 10 e -> place=3 off=10 n=10 noops=0
show -> len=6000 places=3 out=0 doubt=false
crash 0 -> as acknowledged: 10c 10e 5980a
";

/// A step of a job that is refused is still the next one.
const STEPS_TRIED_AGAIN: &str = "\
write 0 10 a -> place=1 off=0 n=10 noops=0
dispatch 1 -> out left=2
stop 1 -> ok
apply 1 -> failed
revive -> ok
apply 1 -> made left=1
stop 1 -> ok
apply 1 -> failed
finish 1 -> unfinished left=1
revive -> ok
apply 1 -> made left=0
stop 1 -> ok
finish 1 -> failed
revive -> ok
dispatch 1 -> out left=2
crash 0 -> as acknowledged: 10a
";
