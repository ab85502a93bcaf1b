//! The text of a plan.
ghost use Rattle.std.specs.Prelude.{◌≡◌, ◌++◌, codes, decimal, OnOk, IfOk, string_bytes};
ghost use Rattle.shred_plan.specs.PlanText.{group_text, groups_text, plan_text};

use crate::{Group, Planner, Stage};
use itoa::Buffer;
use std::alloc::{AllocError, Global};
use std::string::String;

impl<K: Ord + Clone + Drop> Planner<K> {
    /// The plan as a text: one line a stage, ended by a line feed, its groups joined by ` | `, the numbers of a group by `, `.
    ///
    /// Errors: want of memory.
    pub fn print_par_seq(&self, alloc: Global) -> Result<String, AllocError>
        ensures { IfOk result (λ text. string_bytes text ≡ plan_text self.now.stages) }
    {
        let mut text = String::new(alloc);
        for stage in self.stages() {
            print_stage(stage, &mut text)?;
            text.push_str("\n")?;
        }
        Ok(text)
    }
}

/// Writes the groups of a stage to the end of the text.
fn print_stage<K: PartialEq + Drop>(stage: &Stage<K>, text: &mut String) -> Result<(), AllocError>
    ensures { OnOk result (string_bytes text.new ≡ string_bytes text.old ++ groups_text stage.now) }
{
    let Some((first, others)) = stage.groups().split_first() else {
        return Ok(());
    };
    print_group(first, text)?;
    for group in others {
        text.push_str(" | ")?;
        print_group(group, text)?;
    }
    Ok(())
}

/// Writes the numbers of a group to the end of the text.
fn print_group<K: PartialEq + Drop>(group: &Group<K>, text: &mut String) -> Result<(), AllocError>
    ensures { OnOk result (string_bytes text.new ≡ string_bytes text.old ++ group_text group.now) }
{
    let Some((first, others)) = group.systems().split_first() else {
        return Ok(());
    };
    print_number(first.number(), text)?;
    for system in others {
        text.push_str(", ")?;
        print_number(system.number(), text)?;
    }
    Ok(())
}

/// Writes a number in decimal digits to the end of the text.
fn print_number(number: u32, text: &mut String) -> Result<(), AllocError>
    ensures { OnOk result (string_bytes text.new ≡ string_bytes text.old ++ decimal number) }
{
    text.push_str(Buffer::new().format(number))
}
