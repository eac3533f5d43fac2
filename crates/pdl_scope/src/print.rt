//! What is printed of arrays and names.
ghost use Rattle.std.specs.Prelude.{◌≡◌, ◌+◌, ◌++◌, ◌≤◌, true, false, OnOk};
ghost use Rattle.std.specs.List.{flat_map};
ghost use Rattle.pdl_world.specs.Sound.{IsLive};
ghost use Rattle.pdl_machine.specs.Arrays.{array_in};
ghost use Rattle.pdl_print.specs.Pieces.{Begins};
ghost use Rattle.pdl_machine.specs.Step.{printed, info_line, name_line};
ghost use Rattle.pdl_engine.specs.Reading.{read_steps};
ghost use Rattle.pdl_engine.specs.State.{is_fresh};
ghost use Rattle.pdl_scope.specs.Scope.{engine_of, OnlyReads};

use crate::reading::ready;
use crate::scope::Scope;
use pdl_buf::Steps;
use pdl_elem::Name;
use pdl_engine::ArrayId;
use pdl_print::{info_text, write_array};
use std::alloc::AllocError;
use std::sync::ledger::Ledger;

impl Scope {
    /// Prints an array, which can be lent afterwards, or its info line, which reads no element. A
    /// part of it may stand in `out` when out of memory.
    pub fn print<L: Ledger>(
        &mut self,
        id: ArrayId,
        info: bool,
        out: &mut Vec<u8>,
        steps: &mut Steps<L>,
    ) -> Result<(), AllocError>
        requires { IsLive self.old.arrays.world id }
        ensures text { let text = printed info (array_in self.old.arrays id) in
            OnOk result (out.new.items ≡ out.old.items ++ text) }
        ensures front { Begins out.old.items out.new.items }
        ensures same { OnlyReads self.old self.new }
        ensures counted { steps.new ≤ steps.old + read_steps (engine_of self.old) id }
        ensures unread { info ≡ true → steps.new ≡ steps.old }
        ensures lent { OnOk result (info ≡ false → is_fresh (engine_of self.new) id ≡ true) }
    {
        if info {
            return self.print_info(id, out);
        }
        ready(&mut self.engine, id, steps)?;
        write_array(&self.engine.lend(id), out)
    }

    /// Prints the info line of an array.
    fn print_info(&self, id: ArrayId, out: &mut Vec<u8>) -> Result<(), AllocError>
        requires { IsLive self.now.arrays.world id }
        ensures text { let text = info_line (array_in self.now.arrays id) in
            OnOk result (out.new.items ≡ out.old.items ++ text) }
        ensures front { Begins out.old.items out.new.items }
    {
        info_text(self.ty(id), self.dims(id), out)?;
        Ok(out.push(b'\n')?)
    }

    /// Prints a line with each name and the info of its array. A part of them may stand in `out`
    /// when out of memory.
    pub fn print_names(&self, out: &mut Vec<u8>) -> Result<(), AllocError>
        ensures text { let text = flat_map (name_line self.now.arrays) self.now.names.arrays in
            OnOk result (out.new.items ≡ out.old.items ++ text) }
        ensures front { Begins out.old.items out.new.items }
    {
        for index in 0..self.len() {
            let (name, id) = self.entry(index);
            self.print_name(name, id, out)?;
        }
        Ok(())
    }

    /// Prints a line with a name and the info of its array.
    fn print_name(&self, name: &Name, id: ArrayId, out: &mut Vec<u8>) -> Result<(), AllocError>
        requires { IsLive self.now.arrays.world id }
        ensures text { let text = name_line self.now.arrays (name.now, id) in
            OnOk result (out.new.items ≡ out.old.items ++ text) }
        ensures front { Begins out.old.items out.new.items }
    {
        out.extend_from_slice(name.bytes())?;
        out.push(b' ')?;
        self.print_info(id, out)
    }
}
