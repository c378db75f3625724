// Records carried out on a controller.
ghost use Rattle.std.specs.Prelude.{◌<◌, [], ◌∷◌, map, length, drop, replicate};
ghost use Rattle.model.specs.Calls.{command, write, read, bus_calls};
ghost use Rattle.session.specs.Carrying.{live, CarriesOutCalls, CarriesOutRecord};

use crate::LentStep;
use busfile::Kind;

impl<P: Print> LentStep<'_, '_, '_, P> {
    // The command byte of a kind 1 record.
    fn run_command(&mut self, b: u8, record: u64)
        ensures { CarriesOutCalls «record» 1 (command b ∷ []) (live self.old) (live self.new) }
    {
        let answer = self.step.session.controller.command_write_in_place(b);
        self.print_answer(answer, record, 1);
    }

    // The bytes of a kind 1 record behind its command byte. The first of them that go into memory print nothing, and are written as one run.
    fn run_data(&mut self, payload: &[u8], record: u64)
        requires { 0 < length payload.now }
        ensures { CarriesOutCalls «record» 2 (map write (drop 1 payload.now))
            (live self.old) (live self.new) }
    {
        let length = self
            .step
            .session
            .controller
            .write_run_in_place(self.memory, &payload[1..]);
        // By the place, which is the byte's number in a line.
        for i in 1 + length..payload.len() {
            let controller = &mut self.step.session.controller;
            let answer = controller.data_write_in_place(self.memory, payload[i]);
            self.print_answer(answer, record, i as u64 + 1);
        }
    }

    // A command byte, then its data writes.
    fn run_bus(&mut self, payload: &[u8], record: u64)
        ensures { CarriesOutCalls «record» 1 (bus_calls payload.now) (live self.old) (live self.new) }
    {
        if let Some(&command) = payload.first() {
            self.run_command(command, record);
            self.run_data(payload, record);
        }
    }

    fn run_read(&mut self, record: u64, index: u64)
        ensures { CarriesOutCalls «record» index (read ∷ []) (live self.old) (live self.new) }
    {
        // Lent as `&mut`: what stands behind a field that was lent as `&` the check does not know afterwards.
        let memory = &mut *self.memory;
        let answer = self.step.session.controller.data_read_in_place(memory);
        self.print_read(answer, record, index);
    }

    // A count of reads.
    fn run_reads(&mut self, count: u16, record: u64)
        ensures { CarriesOutCalls «record» 1 (replicate count read) (live self.old) (live self.new) }
    {
        for i in 1..=count {
            self.run_read(record, i.into());
        }
    }

    // Carries one record out: three methods with arguments of their own, so that a match is the plainest switch.
    pub(crate) fn run_record(&mut self, kind: Kind, payload: &[u8], record: u64)
        ensures { CarriesOutRecord «record» kind payload.now (live self.old) (live self.new) }
    {
        match kind {
            Kind::Bus => self.run_bus(payload, record),
            Kind::Reads => self.run_reads(busfile::word(payload), record),
            Kind::Frame => self.show(busfile::double_word(payload), record),
        }
    }
}
