// The samples of the rules and their refused inputs, a line for each call.
#![tactic(auto)]

fn sample(v: &[u16]) {
    call_lines::check(v);
    call_lines::there_and_back(v);
    call_lines::shuffle(v);
}

fn samples() {
    sample(&[0]);
    sample(&[0, 0]);
    sample(&[0, 0, 2]);
    sample(&[0, 0, 1, 2]);
    sample(&[0, 0, 1, 4]);
    sample(&[0, 0, 2, 1]);
    sample(&[0, 0, 1, 3]);
    sample(&[0, 0, 2, 2]);
}

// A vector is refused alike by every call that begins from it; p is the identity of its length.
fn refused_vector(v: &[u16], p: &[u16]) {
    let mut numbers = [0u16; 3069];
    let mut bytes = [0u8; 6056];
    call_lines::check(v);
    call_lines::to_table(v, &mut numbers);
    call_lines::to_newick(v, &mut bytes);
    call_lines::pack(v, &mut bytes);
    call_lines::shuffle(v);
    call_lines::relabel(v, p);
}

fn refused_vectors() {
    let zeros = [0u16; 1025];
    let mut numbers = [0u16; 1025];
    for leaf in 0..1025 {
        numbers[leaf] = leaf as u16;
    }
    refused_vector(&[0, 1], &[0, 1]);
    refused_vector(&[0, 0, 3], &[0, 1, 2]);
    refused_vector(&[], &[]);
    refused_vector(&zeros, &numbers);
}

fn refused_texts() {
    call_lines::from_newick(b"");
    call_lines::from_newick(b"01;");
    call_lines::from_newick(b"(0,1)");
    call_lines::from_newick(b"(0,1,2);");
    call_lines::from_newick(b"12345;");
    call_lines::from_newick(b"(0,0);");
    call_lines::from_newick(b"5;");
}

// Of several labels at fault the first counts; a label is double where it stands again.
fn faulty_labels() {
    call_lines::from_newick(b"((0,7),0);");
    call_lines::from_newick(b"((0,0),7);");
    call_lines::from_newick(b"((1,0),1);");
    call_lines::from_newick(b"(7,7);");
}

// Blanks between the signs are passed over; a label that they part is broken, and places count them.
fn blanks() {
    call_lines::from_newick(b"( 0 , 1 ) ; ");
    call_lines::from_newick(b"1 2;");
    call_lines::from_newick(b"(0,1) ");
    call_lines::from_newick(b"(0,1) x");
    call_lines::from_newick(b"(0,1);x");
    call_lines::from_newick(b"( 0 , 7 );");
    call_lines::from_newick(b"( 0 , 0 );");
}

// The trees 0,0,1,4 and 0,0,2,1; no tree; three trees of one leaf.
fn archives() {
    let mut archive = [0u8; 6];
    let two = call_lines::write_archive(4, &[0, 0, 1, 4, 0, 0, 2, 1], &mut archive);
    read_and_view(two, 0);
    read_and_view(two, 1);
    read_and_view(two, 2);
    let none = call_lines::write_archive(4, &[], &mut archive);
    read_and_view(none, 0);
    let three = call_lines::write_archive(1, &[0, 0, 0], &mut archive);
    read_and_view(three, 2);
    call_lines::read_tree(three, 3);
}

fn read_and_view(archive: &[u8], tree: usize) {
    call_lines::read_tree(archive, tree);
    call_lines::view(archive, tree);
}

fn refused_lists() {
    let mut archive = [0u8; 6];
    call_lines::write_archive(0, &[], &mut archive);
    call_lines::write_archive(1025, &[], &mut archive);
    call_lines::write_archive(4, &[0, 0, 1], &mut archive);
    call_lines::write_archive(4, &[0, 0, 1, 4, 0, 0, 2, 5], &mut archive);
}

// Too short, cut, too long, too many leaves, none; what is wrong in another tree, or in this one; and as many trees as there can be.
fn damaged_archives() {
    call_lines::read_tree(&[0x00, 0x80, 0x00], 0);
    call_lines::read_tree(&[0x00, 0x80, 0x00, 0x02, 0x60], 0);
    call_lines::read_tree(&[0x00, 0x80, 0x00, 0x02, 0x60, 0x88, 0x00], 0);
    call_lines::read_tree(&[0xFF, 0xE0, 0x00, 0x02, 0x60, 0x88], 0);
    call_lines::read_tree(&[0x00, 0x00, 0x00, 0x02, 0x60, 0x88], 0);
    call_lines::read_tree(&[0x00, 0x80, 0x00, 0x02, 0x60, 0xA8], 0);
    call_lines::read_tree(&[0x00, 0x80, 0x00, 0x02, 0x60, 0xA8], 1);
    call_lines::read_tree(&[0x00, 0x80, 0x00, 0x02, 0x60, 0x89], 1);
    call_lines::read_tree(&[0x00, 0x3F, 0xFF, 0xFF], 2097150);
    call_lines::read_tree(&[0x00, 0x3F, 0xFF, 0xFF], 2097151);
}

fn main() {
    samples();
    call_lines::from_table(4, &[1, 0, 4, 3, 2, 5, 5, 4, 6]);
    call_lines::relabel(&[0, 0, 1, 4], &[1, 0, 2, 3]);
    refused_vectors();
    refused_texts();
    faulty_labels();
    blanks();
    call_lines::unpack(&[0x00, 0x41]);
    archives();
    refused_lists();
    damaged_archives();
}
