//! All held jobs wait.
ghost use Rattle.std.specs.Prelude.{◌≡◌, ℕ, ◌+◌, ◌*◌, ◌^◌, ◌<◌, ◌≤◌, [], ◌++◌, length, map, reverse, vec_capacity};
ghost use Rattle.dover_model.specs.Common.{with_role, Each};
ghost use Rattle.waiting_pool.specs.Reordered.{IsReordered};
ghost use Rattle.ready_jobs.specs.Changed.{made_wait};
ghost use Rattle.waiting_pool.specs.Pools.{orders_of};
ghost use Rattle.waiting_pool.specs.Short.{no_number};

use crate::held::pop;
use comparison_count::Comparisons;
use dover_model::{Role, Task};
use std::sync::ledger::Ledger;
use waiting_pool::{Pool, ShortTask};

// The job in another role.
#[inline(always)]
pub(crate) fn in_role(t: &Task, role: Role) -> Task
    ensures { result ≡ with_role t.now role }
{
    Task {
        number: t.number,
        job: t.job,
        role,
        had: t.had,
    }
}

// The held jobs wait in the pool.
pub(crate) fn displace<L: Ledger>(
    held: &mut Vec<ShortTask>,
    pool: &mut Pool,
    comparisons: &mut Comparisons<L>,
)
    requires room { length held.old.items + length pool.old.tasks ≤ pool.old.room }
    requires numbers { Each (λ t. t.number < no_number) (reverse held.old.items) }
    ensures none { held.new.items ≡ [] }
    ensures capacity { vec_capacity held.new ≡ vec_capacity held.old }
    ensures kept { pool.new ≡ record pool.old { tasks = pool.new.tasks } }
    ensures more { IsReordered (map made_wait (reverse held.old.items) ++ pool.old.tasks) pool.new.tasks }
    ensures count { (d : ℕ) → length held.old.items + length pool.old.tasks + 1 < 2 ^ d →
        comparisons.new ≤ comparisons.old + orders_of pool.old.version * d * length held.old.items }
{
    while let Some(t) = pop(held) {
        pool.add(in_role(&t, Role::Waiting), comparisons);
    }
}
