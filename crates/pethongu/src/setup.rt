// A table with what is asked of it: how its jobs come, and by which policy they run.
use crate::command_table::{print_rows, sealed_table};
use crate::system_words::SystemWords;
use crate::trouble::Trouble;
use command_options::settings::Settings;
use job_state::State;
use policies::Choice;
use policy_choice::choose_policy;
use run_listing::Listing;
use run_timeline::Timeline;
use std::alloc::{AllocError, Global};
use std::io;
use table_source::Source;
use task_runs::{TaskStep, list_ticks, record_run};
use task_table::table::TaskTable;

#[derive(Drop)]
pub(crate) struct Setup<'a> {
    pub(crate) table: TaskTable,
    pub(crate) policy: Choice,
    pub(crate) settings: &'a Settings,
}

impl<'a> Setup<'a> {
    // The table of the source, under the policy that the settings choose for it.
    pub(crate) fn read<'b>(
        rt: &HostRuntime,
        source: Source<'b>,
        settings: &'a Settings,
    ) -> Result<Setup<'a>, Trouble<'b>> {
        let table = sealed_table(rt, source)?;
        let policy = choose_policy(settings, table.len())?;
        Ok(Setup {
            table,
            policy,
            settings,
        })
    }

    pub(crate) fn first(&self) -> State {
        State::first(self.settings.kind, self.table.tasks())
    }

    // The events made on a new run.
    pub(crate) fn record(&self, heap: Global, events: &[u8]) -> Result<Vec<TaskStep>, AllocError> {
        record_run(heap, self.settings.kind, &self.table, &self.policy, events)
    }

    // The rows of the table, the kind and the policy.
    pub(crate) fn print_head(&self, rt: &HostRuntime) -> io::Result<()> {
        print_rows(rt, &self.table)?;
        println!(rt; "{}\n", SystemWords(self.settings))
    }

    // The run event by event, forced ones from that step on, and then tick by tick.
    pub(crate) fn draw_run(
        &self,
        rt: &HostRuntime,
        steps: &[TaskStep],
        forced_from: usize,
    ) -> Result<(), Trouble<'static>> {
        let tasks = self.table.tasks();
        let first = self.first();
        let ticks = list_ticks(rt.alloc(), &self.policy, tasks, first, steps)?;
        let listing = Listing {
            tasks,
            first,
            steps,
            ticks: &ticks,
            forced_from,
        };
        println!(rt; "{listing}")?;
        let timeline = Timeline {
            tasks,
            ticks: &ticks,
        };
        Ok(print!(rt; "{timeline}")?)
    }
}
