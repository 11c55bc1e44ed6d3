// A processor of the machine as a record, and the one step that advances it.
ghost use Rattle.std.specs.Prelude.{◌≡◌};
ghost use Rattle.stepping_machine.specs.Advance.{Narrow, Small, after};

// The clock, the position in the programme and the store in use.
#[derive(Clone, Copy)]
pub struct Processor {
    pub clock: usize,
    pub position: usize,
    pub store: usize,
}

// A processor after a command that waits for the time `wait`, takes the time `work` and needs the store `need`.
fn advanced(p: Processor, wait: usize, work: usize, need: usize) -> Processor
    requires { Narrow p × Small wait work need }
    ensures { result ≡ after p wait work need }
{
    let clock = p.clock.max(wait) + work;
    Processor {
        clock,
        position: p.position + 1,
        store: p.store + need,
    }
}

// The machine's step: the processor that is lent does one command.
fn advance(p: &mut Processor, wait: usize, work: usize, need: usize)
    requires { Narrow p.old × Small wait work need }
    ensures { p.new ≡ after p.old wait work need }
{
    *p = advanced(*p, wait, work, need);
}

// The same of a processor that is passed: it is lent to the step and handed back.
pub fn stepped(mut p: Processor, wait: usize, work: usize, need: usize) -> Processor
    requires { Narrow p × Small wait work need }
    ensures { result ≡ after p wait work need }
{
    advance(&mut p, wait, work, need);
    p
}
