// The frames: what is open, the innermost last. A frame says what must come next in it.
use crate::table::Place;

// What must come next. Frames are copied and kept in a list, so it is an enum, and one match says which function takes the step.
#[derive(Clone, Copy, PartialEq, Eq)]
pub enum Task {
    // The message: its value, or what comes after it.
    Message,
    After,
    // A container: what follows its opening mark, its `$`, its type, its `#`; a member, the value of an object's member, a payload.
    Header,
    Type,
    Hash,
    Count,
    Member,
    Value,
    Payload,
    // A schema record: a field's key or the end, a field's kind. A fixed array: what follows its `[`, an element or the end.
    Field,
    FieldKind,
    Fixed,
    Element,
    // A dimension vector: what follows a `[` that may be an outer one, what follows the vector's own; its type, the `#` after that,
    // its count; a dimension or the end.
    Outer,
    Vector,
    VectorType,
    VectorHash,
    VectorCount,
    Dimension,
}

impl Task {
    // Whether it is of a dimension vector.
    fn is_vector(self) -> bool {
        matches!(
            self,
            Task::Outer
                | Task::Vector
                | Task::VectorType
                | Task::VectorHash
                | Task::VectorCount
                | Task::Dimension
        )
    }
}

// What a header says of the members: nothing, the mark of all, or a schema.
#[derive(Clone, Copy, PartialEq, Eq)]
pub enum Members {
    Any,
    Marked(u8),
    Records,
}

// The most frames: the message's, 32 of values, 8 of a schema. A vector's is open only while no schema's is.
const ALL: usize = 41;

// What is open.
#[derive(Clone, Copy)]
pub struct Frame {
    // What must come next.
    pub task: Task,
    // The token's row, the byte that opens it, and what its header says of its members.
    pub row: u32,
    pub mark: u8,
    pub members: Members,
    // The token's first byte.
    pub first: u32,
    // Its payload's first byte; in a schema the offset in the record.
    pub start: u32,
    // The members so far, and in all, unless a closing mark ends them.
    pub count: u32,
    pub total: Option<u32>,
}

// The frame of the message, and what there is of a frame before it is opened.
pub const MESSAGE: Frame = Frame {
    task: Task::Message,
    row: 0,
    mark: 0,
    members: Members::Any,
    first: 0,
    start: 0,
    count: 0,
    total: None,
};

impl Frame {
    // With another task.
    pub fn turned(self, task: Task) -> Frame {
        Frame { task, ..self }
    }

    // With one member more.
    pub fn counted(self) -> Frame {
        Frame {
            count: self.count.saturating_add(1),
            ..self
        }
    }

    // Whether it has all its members.
    pub fn is_full(self) -> bool {
        self.total == Some(self.count)
    }
}

// All frames, and how many are open. There is no heap, so the list is fixed and its length stands beside it.
#[derive(Drop)]
pub struct Stack {
    frames: [Frame; ALL],
    open: usize,
}

impl Stack {
    // With none open.
    pub fn new() -> Stack {
        Stack {
            frames: [MESSAGE; ALL],
            open: 0,
        }
    }

    // How many are open.
    pub fn open(&self) -> usize {
        self.open
    }

    // The frame at a place.
    fn at(&self, place: usize) -> Frame {
        self.frames.get(place).copied().unwrap_or(MESSAGE)
    }

    // The innermost frame, if one is open.
    pub fn innermost(&self) -> Option<Frame> {
        match self.open {
            0 => None,
            open => Some(self.at(open - 1)),
        }
    }

    // Stores a frame in place of the innermost.
    pub fn keep(&mut self, frame: Frame) {
        let place = self.open.saturating_sub(1);
        if let Some(innermost) = self.frames.get_mut(place) {
            *innermost = frame;
        }
    }

    // Opens a frame.
    pub fn push(&mut self, frame: Frame) {
        self.open = self.open.saturating_add(1);
        self.keep(frame);
    }

    // Closes the innermost frame.
    pub fn pop(&mut self) {
        self.open = self.open.saturating_sub(1);
    }

    // The place of the innermost frame that has a row. All have one but the message's, which is the outermost, and a dimension vector's,
    // which is the innermost while it is open: so this place is also how many have one. 0 is the message's, if none has.
    fn holder(&self) -> usize {
        let place = self.open.saturating_sub(1);
        if self.at(place).task.is_vector() {
            place.saturating_sub(1)
        } else {
            place
        }
    }

    // Where a token stands that stands in what is open.
    pub fn place(&self) -> Place {
        let holder = self.holder();
        let parent = if holder == 0 {
            0
        } else {
            self.at(holder).row.saturating_add(1)
        };
        Place {
            parent,
            depth: crate::numbers::number(holder),
        }
    }
}
