//! What the words of the command line ask for.
ghost use Rattle.std.specs.Prelude.{◌≤◌, IfSome, vec_len};
ghost use Rattle.mapf_bench.specs.Jobs.{IsInRange};

use mapf_model::limits::{MOST_AGENTS, MOST_SPLITS};

/// What is done with each problem.
#[derive(Clone, Copy, Debug)]
pub enum Task {
    /// Plain search solves it.
    Solve,
    /// Plain search solves it, and the answer is checked.
    Check,
    /// Plain search solves it, the answer is checked, and a plan is played.
    Play,
    /// The second search solves it, which begins with a plan.
    Second,
    /// The second search solves it, and the answer is checked again and again.
    Judge,
}

/// What the floors look like.
#[derive(Clone, Copy, Debug)]
pub enum Layout {
    /// No cell is blocked.
    Open,
    /// A fifth of the cells is blocked, anywhere.
    Random,
    /// Corridors one cell wide, with some loops.
    Maze,
    /// Shelves in rows, with aisles one cell wide between them.
    Warehouse,
}

/// What the words of the command line ask for.
#[derive(Clone, Copy, Debug)]
pub struct Job {
    pub task: Task,
    pub layout: Layout,
    /// Columns and rows of each floor.
    pub width: u32,
    pub height: u32,
    /// How many agents each problem has, 1 to 200.
    pub agents: u32,
    /// The greatest number of splits, 0 to 100,000.
    pub limit: u32,
    /// How many problems there are.
    pub problems: u32,
    pub seed: u32,
}

impl Job {
    /// Returns the job, whose words follow the program's name. None if a word is no such name or number, or out of
    /// range.
    pub fn of(words: &[String]) -> Option<Job>
        ensures { IfSome result IsInRange }
    {
        let [
            _,
            task,
            layout,
            width,
            height,
            agents,
            limit,
            problems,
            seed,
        ] = words
        else {
            return None;
        };
        let job = Job {
            task: task_of(task.as_str())?,
            layout: layout_of(layout.as_str())?,
            width: number_of(width.as_str())?,
            height: number_of(height.as_str())?,
            agents: number_of(agents.as_str())?,
            limit: number_of(limit.as_str())?,
            problems: number_of(problems.as_str())?,
            seed: number_of(seed.as_str())?,
        };
        if job.agents < 1 || job.agents > MOST_AGENTS || job.limit > MOST_SPLITS {
            return None;
        }
        Some(job)
    }
}

fn task_of(word: &str) -> Option<Task> {
    match word {
        "solve" => Some(Task::Solve),
        "check" => Some(Task::Check),
        "play" => Some(Task::Play),
        "second" => Some(Task::Second),
        "judge" => Some(Task::Judge),
        _ => None,
    }
}

fn layout_of(word: &str) -> Option<Layout> {
    match word {
        "open" => Some(Layout::Open),
        "random" => Some(Layout::Random),
        "maze" => Some(Layout::Maze),
        "warehouse" => Some(Layout::Warehouse),
        _ => None,
    }
}

fn number_of(word: &str) -> Option<u32> {
    word.parse::<u32>().ok()
}
