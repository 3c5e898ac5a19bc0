ghost use Rattle.std.specs.Prelude.{◌≡◌, ◌++◌, ◌∷◌, ◌+◌, ◌<◌, ◌^◌, [], IfOk, IfSome, string_bytes, decimal, slice_get};
ghost use Rattle.alg_expr.specs.Ids.{IsIn};
ghost use Rattle.alg_show.specs.Tasks.{IsArgument, part_task};

use crate::tasks::{Place, Task};
use alg_expr::{Arena, ExprId, Memory, View};
use itoa::Buffer;

pub(crate) fn add(tasks: &mut Vec<Task>, task: Task) -> Result<(), Memory>
    ensures { IfOk result (λ u. tasks.new.items ≡ tasks.old.items ++ task ∷ []) }
{
    tasks.push(task)?;
    Ok(())
}

pub(crate) fn write(out: &mut String, text: &str) -> Result<(), Memory>
    ensures { IfOk result (λ u. string_bytes out.new ≡ string_bytes out.old ++ text.now) }
{
    out.push_str(text)?;
    Ok(())
}

pub(crate) fn write_number(out: &mut String, number: u128) -> Result<(), Memory>
    ensures { IfOk result (λ u. string_bytes out.new ≡ string_bytes out.old ++ decimal number) }
{
    let mut buffer = Buffer::new();
    write(out, buffer.format(number))
}

// an argument of a tree, by its number
pub(crate) fn argument(arena: &Arena, id: ExprId, number: usize) -> Option<ExprId>
    requires { IsIn arena.now id }
    ensures there { IsArgument arena.now id number result }
    ensures inside { IfSome result (IsIn arena.now) }
    ensures room { IfSome result (λ a. number + 1 < 2 ^ 64) }
{
    match arena.view(id) {
        View::App { args, .. } => item(args, number),
        _ => None,
    }
}

fn item(ids: &[ExprId], number: usize) -> Option<ExprId>
    ensures item { result ≡ slice_get ids.now number }
    ensures room { IfSome result (λ a. number + 1 < 2 ^ 64) }
{
    if number < ids.len() {
        Some(ids[number])
    } else {
        None
    }
}

// the task of an argument
pub(crate) fn part(place: Place, ask: bool, id: Option<ExprId>) -> Task
    ensures { result ≡ part_task place ask id }
{
    match id {
        Some(id) => Task::Part(place, ask, id),
        None => Task::Zero,
    }
}
