//! Programs of calls on the real site.
use crate::programs::on_machine;
use std::test::Fail;

// A file is made and changed, a renamed one takes the place of another, and one isn't there.
const FILES: &str = "\
create sinks/a = done
create sinks/a = Exists
append sinks/a hello = done
sync sinks/a = done
cut sinks/a - 6 = Short { size: 5 }
cut sinks/a - 4 = done
append sinks/a p = done
size sinks/a = 5
std is sinks/a hellp
std write archive/b old
create sinks/b = done
append sinks/b new = done
rename sinks/b archive/b = done
create sinks/b = done
append sinks/b next = done
size archive/b = 3
std is archive/b new
std is sinks/b next
create sinks/c = done
remove sinks/c = done
remove sinks/c = Missing
size sinks/c = Missing
faults 0
append sinks/c x = Failed
faults 1
sync sinks/c = Failed
faults 2
cut sinks/c - 0 = Missing
faults 2
rename sinks/c sinks/d = Failed
faults 3
";

#[test]
fn files_are_made_and_changed(rt: HostRuntime) -> Result<(), Fail> {
    on_machine(rt, FILES)
}

// Pieces of a file and of a log, and a log that is made and grows.
const PIECES: &str = "\
std write p.log hello
read p.log - 0 4 = [hell]
read p.log - 4 4 = [o]
read p.log - 5 4 = []
read p.log - 2 2 = [ll]
read p.log - 2 0 = []
read p.log - 6 4 = Short { size: 5 }
read p.log - 18446744073709551615 4 = Short { size: 5 }
logread p.log base 0 4 = [hell] -
logread p.log base 4 4 = [o] -
logread p.log base 5 4 = [] -
logread p.log base 2 2 = [ll] -
logread p.log base 2 0 = [] -
logread p.log base 6 4 = Short { size: 5 }
logread p.log base 18446744073709551615 4 = Short { size: 5 }
read none.log - 0 4 = Missing
logread none.log base 0 4 = [] -
logread none.log base 1 4 = Short { size: 0 }
logappend q.log hel = done
logappend q.log lo = done
std is q.log hello
";

#[test]
fn files_and_logs_are_read_in_pieces(rt: HostRuntime) -> Result<(), Fail> {
    on_machine(rt, PIECES)
}

// Generations are read in the order of their suffixes. A base file that was looked at stays the base file
// when it is renamed, until it hasn't grown for three seconds.
const GENERATIONS: &str = "\
std dir logs
std write logs/r.log.2010-11-09 two
std write logs/r.log.2010-11-08 one
std write logs/r.log.2010-11-08.gz no
std write logs/r.log now
logread logs/r.log - 0 3 = [one] .2010-11-08
logread logs/r.log - 1 1 = [n] -
logread logs/r.log .2010-11-08 0 9 = [two] .2010-11-09
logread logs/r.log .2010-11-09 1 9 = [ow] -
lognewest logs/r.log = .2010-11-09
std write s.log old
logread s.log - 0 1 = [o] -
logread s.log - 1 1 = [l] -
std rename s.log s.log.2010-11-08
std write s.log new
logread s.log - 2 9 = [d] -
logread s.log - 3 9 = [] -
lognewest s.log = -
pause - - 3000 = done
logread s.log - 3 9 = [] .2010-11-08
lognewest s.log = .2010-11-08
logread s.log .2010-11-08 2 9 = [w] -
logread s.log .2010-11-08 2 9 = [w] -
logread s.log base 2 9 = [w] -
";

#[test]
fn generations_are_read_in_order(rt: HostRuntime) -> Result<(), Fail> {
    on_machine(rt, GENERATIONS)
}

// A folder gives its words in order. One name there is no word.
const FOLDER: &str = "\
std dir names
std empty names/b
std empty names/a b
std empty names/B
std empty names/aa
std empty names/.a
list names - = [.a B aa b ]
list none - = []
";

#[test]
fn a_folder_gives_its_words_in_order(rt: HostRuntime) -> Result<(), Fail> {
    on_machine(rt, FOLDER)
}

// The folder's name is a file's before the site is made.
const TAKEN: &str = "\
std rmdir joined
std empty joined
";

const WITHOUT: &str = "\
faults 1
create joined/a = Failed
faults 2
size joined/a = Failed
faults 3
size sinks = Failed
faults 4
std remove joined
";

#[test]
fn a_folder_that_cannot_be_made_is_a_fault(rt: HostRuntime) -> Result<(), Fail> {
    on_machine(rt, TAKEN)?;
    on_machine(rt, WITHOUT)
}

const FAILURES: &str = "\
failure
remove sinks/e = Missing
failure
append sinks/e x = Failed
failure append sinks/e: No such file or directory (os error 2)
create sinks = Exists
failure append sinks/e: No such file or directory (os error 2)
append sinks x = Failed
failure append sinks: Is a directory (os error 21)
create no/e = Failed
failure create no/e: No such file or directory (os error 2)
size no/e = Failed
failure size no/e: its folder is not there
size sinks = Failed
failure size sinks: Is a directory (os error 21)
logread sinks base 0 1 = [] -
failure size sinks: Is a directory (os error 21)
send 127.0.0.1:1 lost = Failed
failure send 127.0.0.1:1: Connection refused (os error 111)
take 127.0.0.1 - 0 = Failed
failure take 127.0.0.1: invalid socket address
answer - late 1 = Failed
failure answer: the taking has ended
";

#[test]
fn a_failure_tells_its_cause(rt: HostRuntime) -> Result<(), Fail> {
    on_machine(rt, FAILURES)
}
