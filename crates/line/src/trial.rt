// A trial on a line: unless it is kept, the line is put back as it stood.
ghost use Rattle.std.specs.Prelude.{◌≡◌, None, Some, unwrap_or};

use super::line::Line;

// `before` is the line as it stood, while the trial is not kept.
pub(crate) struct Trial<'a> {
    pub(crate) line: &'a mut Line,
    before: Option<Line>,
}

impl Drop for Trial<'_> {
    fn drop(self)
        ensures { self.exit.0.now ≡ unwrap_or self.entry.before self.entry.line.now }
    {
        let Trial { line, before } = self;
        if let Some(before) = before {
            *line = before;
        }
    }
}

impl<'a> Trial<'a> {
    // Begins a trial on a line.
    pub(crate) fn start(line: &'a mut Line) -> Trial<'a>
        ensures same { result.line.ghost_name ≡ line.entry.ghost_name }
        ensures held { result.line.now ≡ line.old }
        ensures before { result.before ≡ Some line.old }
    {
        let before = Some(*line);
        Trial { line, before }
    }

    // Keeps what the trial did.
    pub(crate) fn keep(&mut self)
        ensures same { self.new.line.ghost_name ≡ self.old.line.ghost_name }
        ensures held { self.new.line.now ≡ self.old.line.now }
        ensures kept { self.new.before ≡ None }
    {
        self.before = None;
    }
}
