use crate::cases::CASES;
use crate::rig::Rig;
use crate::stops::{BEGUN, STOPS, Stops};
use cfs_file::NoMemory;
use std::alloc::Global;
use std::test::Fail;

/// The lines of a case, each with what its command answers now.
fn played(alloc: Global, case: &str) -> Result<String, NoMemory> {
    let mut rig = Rig::new(alloc)?;
    let mut text = String::new(alloc);
    for line in case.lines() {
        let (command, _) = line.split_once(" -> ").unwrap_or((line, ""));
        let answer = rig.carry_out(command)?;
        write!(text, "{command} -> {answer}\n")?;
    }
    Ok(text)
}

#[test]
fn each_command_answers_as_its_line_says(rt: HostRuntime) -> Result<(), Fail> {
    for case in CASES {
        let text = played(rt.alloc(), case)?;
        assert_eq!(rt; text.as_str(), case);
    }
    Ok(())
}

/// Carries out the commands of a script, one a line.
fn carry_out_all(rig: &mut Rig, script: &str) -> Result<(), NoMemory> {
    for command in script.lines() {
        let _ = rig.carry_out(command)?;
    }
    Ok(())
}

/// The file that a crash of a pick leaves where the power stops at a writing step of a script.
fn left(alloc: Global, script: &str, step: u64, pick: u64) -> Result<String, NoMemory> {
    let mut rig = Rig::new(alloc)?;
    carry_out_all(&mut rig, BEGUN)?;
    let _ = rig.stop(step)?;
    carry_out_all(&mut rig, script)?;
    rig.crash(pick)
}

/// The lines of what is left, as they are now.
fn left_now(alloc: Global, stops: &Stops) -> Result<String, NoMemory> {
    let mut text = String::new(alloc);
    let mut step: u64 = 0;
    for _ in stops.left.lines() {
        step = step.saturating_add(1);
        let lost = left(alloc, stops.script, step, 0)?;
        let kept = left(alloc, stops.script, step, 1)?;
        write!(text, "{step} -> {lost} | {kept}\n")?;
    }
    Ok(text)
}

#[test]
fn a_stop_leaves_the_file_before_or_after_a_change(rt: HostRuntime) -> Result<(), Fail> {
    for stops in STOPS {
        let text = left_now(rt.alloc(), &stops)?;
        assert_eq!(rt; text.as_str(), stops.left);
    }
    Ok(())
}
