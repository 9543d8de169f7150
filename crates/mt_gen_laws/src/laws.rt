ghost use Rattle.std.specs.Prelude.{◌≤◌, ℕ, map};
ghost use Rattle.mt_gen.specs.Schedule.{steps, schedule_text};
ghost use Rattle.mt_schedule.specs.Schedule.{SpellsSchedule};
ghost use Rattle.mt_gen_laws.specs.Commands.{command_of};

/// The schedule of 1 to 6,000 clicks is read as the loads, clicks, serves and deliveries of its steps, in their order.
pub fn generated_schedule_is_read()
    ensures { (n : ℕ) → 1 ≤ n → n ≤ 6000 → SpellsSchedule (schedule_text n) (map command_of (steps n)) }
{}
