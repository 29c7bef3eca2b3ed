//! Queues, as a certificate lists them.

ghost use Rattle.std.specs.Prelude.{◌≡◌, ◌^◌, IfOk, get_or};
ghost use Rattle.queue_certificates.specs.Certificates.{no_queue};
ghost use Rattle.known_values.specs.Queues.{queue_in};

use crate::fields::Field;
use crate::lack::{Lack, product};
pub use queue_layouts::Queue;
use std::marker::Model;

/// A queue, the count at which both its indices open, and the fields of its records.
#[derive(Drop)]
pub struct OpenedQueue {
    pub queue: Queue,
    pub start: u64,
    pub fields: Vec<Field>,
}

impl Model for OpenedQueue {
    ghost use Rattle.queue_certificates.specs.Certificates.{OpenedQueue as OpenedQueueOf};

    ghost Value = { OpenedQueueOf };

    ghost view = { λ o. record {
      queue = o.queue;
      start = o.start;
      fields = o.fields.items;
    } };
}

/// How many numbers as many bytes have.
pub fn words_of(bytes: u32) -> Result<u64, Lack>
    ensures { IfOk result (λ n. n ≡ 256 ^ bytes) }
{
    let mut count = 1;
    for i in 0..bytes {
        let _turn = i;
        count = product(count, 256)?;
    }
    Ok(count)
}

/// Queue `i` of these; one of zeros, if there are fewer.
pub fn queue_in(queues: &[OpenedQueue], i: u32) -> Queue
    ensures { result ≡ queue_in queues.now i }
{
    match queues.get(i as usize) {
        Some(opened) => opened.queue,
        None => Queue {
            sender: 0,
            receiver: 0,
            head: 0,
            tail: 0,
            index_width: 0,
            slots: 0,
            size: 0,
            width: 0,
            capacity: 0,
            base: 0,
            scale: 0,
            offset: 0,
            modulus: 0,
        },
    }
}

/// The fields of queue `i`; none, if there are fewer.
pub fn fields_in(queues: &[OpenedQueue], i: u32) -> &[Field]
    ensures { result.now ≡ (get_or queues.now i no_queue).fields }
{
    match queues.get(i as usize) {
        Some(opened) => &opened.fields,
        None => &[],
    }
}
