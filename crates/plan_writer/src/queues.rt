// The queue of each processor, so that its programme is written without a look at the tasks of the others.
ghost use Rattle.std.specs.Prelude.{◌≡◌, ◌+◌, ◌<◌, length, replicate};
ghost use Rattle.schedule.specs.Layout.{schedule_in};
ghost use Rattle.plan_writer.specs.Queues.{Queued};
ghost use Rattle.plan_writer.specs.Scheduled.{Scheduled};

// Turn i goes before the queue of its processor.
fn queue_one(w: &[u32], queues: &mut [u32], i: usize)
    requires scheduled { Scheduled w.now }
    requires i_in_bounds { i < length (schedule_in w.now).order }
    requires queued { Queued (schedule_in w.now) (i + 1) queues.old }
    ensures { Queued (schedule_in w.now) i queues.new }
{
    let k = schedule::place(w, schedule::turn(w, i));
    queues[16 + i] = queues[k];
    queues[k] = i as u32;
}

// All turns go into the queues, the last first.
pub fn queue_all(w: &[u32], queues: &mut [u32])
    requires scheduled { Scheduled w.now }
    requires queues_value { queues.old ≡ replicate 272 (length (schedule_in w.now).order) }
    ensures { Queued (schedule_in w.now) 0 queues.new }
{
    for i in (0..schedule::placed(w)).rev() {
        queue_one(w, queues, i);
    }
}
