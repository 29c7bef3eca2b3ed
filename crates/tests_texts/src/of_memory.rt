use memory::store_buffer::StoreBuffer;
use memory::words::Memory;
use memory::writes::{Write, part};

#[test]
fn words_stand_where_they_were_put(rt: HostRuntime) {
    let mut memory = Memory::<4>::open(rt.alloc(), &[7, 8]).expect(&rt, "memory");
    memory.store_bytes(4, 4, 9);
    memory.store_bytes(12, 4, 5);
    assert_same!(rt; memory.words(), [7, 9, 0, 5].as_slice());
    assert_same!(rt; memory.load(4), 9);
}

#[test]
fn the_lowest_byte_stands_at_the_lowest_address(rt: HostRuntime) {
    let mut memory = Memory::<1>::open(rt.alloc(), &[]).expect(&rt, "memory");
    memory.store_bytes(2, 2, 258);
    assert_same!(rt; (memory.load(0), memory.load_byte(2)), (16908288, 2));
    assert_same!(rt; part(memory.load(0), 2, 2), 258);
}

#[test]
fn a_restarted_memory_has_its_first_words(rt: HostRuntime) {
    let mut memory = Memory::<2>::open(rt.alloc(), &[7]).expect(&rt, "memory");
    memory.store_bytes(4, 4, 5);
    memory.store_bytes(0, 4, 9);
    memory.restart();
    assert_same!(rt; memory.words(), [7, 0].as_slice());
}

const WORD: Write = Write {
    addr: 0,
    width: 4,
    value: 258,
};

/// A word, and then a byte within it.
fn two_stores() -> StoreBuffer<4> {
    let mut buffer = StoreBuffer::new();
    buffer.push(0, 4, 258);
    buffer.push(1, 1, 3);
    buffer
}

#[test]
fn the_oldest_store_lands_first(rt: HostRuntime) {
    let mut buffer = two_stores();
    assert_same!(rt; (buffer.len(), buffer.as_slice().len()), (2, 2));
    assert_same!(rt; buffer.land(), Some(WORD));
    assert_same!(rt; buffer.is_empty(), false);
    buffer.clear();
    assert_same!(rt; buffer.is_empty(), true);
    assert_same!(rt; buffer.land(), None);
}

#[test]
fn the_newest_byte_is_seen(rt: HostRuntime) {
    let buffer = two_stores();
    assert_same!(rt; buffer.newest(0), Some(2));
    assert_same!(rt; buffer.newest(1), Some(3));
    assert_same!(rt; buffer.newest(4), None);
    assert_same!(rt; buffer.over(2, 5), 770);
}

#[test]
fn a_write_covers_its_bytes(rt: HostRuntime) {
    assert_same!(rt; (WORD.covers(3), WORD.covers(4)), (true, false));
    assert_same!(rt; (WORD.byte(1), WORD.over(7)), (1, 258));
}
