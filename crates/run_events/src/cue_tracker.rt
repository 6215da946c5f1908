//! The breaks of one injector, of which the cues go out.

ghost use Rattle.run_events.specs.Telling.{Tells};

use crate::followed::as_asked;
use crate::occurrence::{Cue, What};
use crate::watch::{Site, Watch};
use arrayvec::ArrayVec;
use event_table::Event;
use injector::Injector;

/// The most breaks that stand at one time.
const MOST: usize = 32;

/// The breaks of one injector, as they were seen last.
#[derive(Drop)]
pub(crate) struct CueTracker {
    known: ArrayVec<Event, MOST>,
}

impl CueTracker {
    /// Nothing was seen.
    pub(crate) fn new() -> CueTracker {
        CueTracker {
            known: ArrayVec::new(),
        }
    }

    /// The break of this number and start as it was seen last.
    fn known_as(&self, event: &Event) -> Option<Event> {
        for known in self.known.iter() {
            if known.id == event.id && known.start == event.start {
                return Some(*known);
            }
        }
        None
    }

    /// Looks at an injector behind a packet before which it put the cues of the requests since the packet before, and tells of those that
    /// went out first.
    pub(crate) fn look<W: Watch>(&mut self, injector: &Injector, site: Site, watch: &mut W)
        ensures { Tells W.hears site watch.old 0 0 0 watch.new }
    {
        let mut now: ArrayVec<Event, MOST> = ArrayVec::new();
        for place in 0..MOST {
            let Some(event) = injector.standing_event(place) else {
                break;
            };
            tell_new(self.known_as(&event), &event, site, watch);
            let _ = now.try_push(event);
        }
        self.known = now;
    }
}

/// Tells of the cues that are new of a break. Of one that was cancelled before its first cue the cancel alone goes out.
fn tell_new<W: Watch>(known: Option<Event>, event: &Event, site: Site, watch: &mut W)
    ensures { Tells W.hears site watch.old 0 0 0 watch.new }
{
    if known.is_none() && !event.cancelled {
        site.tell(watch, What::Cue(Cue::Start(None), as_asked(event)));
    }
    let before = known.unwrap_or(as_asked(event));
    if event.length != before.length && !event.cancelled {
        site.tell(watch, What::Cue(Cue::End, *event));
    }
    if event.cancelled && !before.cancelled {
        site.tell(watch, What::Cue(Cue::Cancel, *event));
    }
}
